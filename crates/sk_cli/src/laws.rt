ghost use Rattle.sk_cli.specs.OneAnswer.{AnswersAreOne};

/// A law: where the contents of files are told, words have one answer.
pub fn words_have_one_answer()
    ensures { AnswersAreOne }
{}
