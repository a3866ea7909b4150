/// A word that sets something of an instance.
#[derive(Clone, Copy, PartialEq, Eq, Debug)]
pub enum SettingWord {
    Start,
    Pad,
    Overlap,
    Scan,
    Lines,
    Edge,
}
