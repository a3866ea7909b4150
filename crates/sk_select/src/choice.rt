ghost use Rattle.std.specs.Prelude.{◌≡◌};
ghost use Rattle.sk_isa.specs.Offers.{is_offered as offers};
ghost use Rattle.sk_select.specs.Choice.{choice_of, covers};

use crate::tuning::{Rule, Tuning};
use sk_base::Variant;
use sk_isa::Plan;
use sk_tree::Skeleton;

#[tactic(auto, unfolding(crate::specs::Choice::same_skeleton))]
fn covers_call(rule: &Rule, skeleton: Skeleton, n: u64) -> bool
    ensures { result ≡ covers skeleton n rule.now }
{
    rule.skeleton == skeleton && n <= rule.upto
}

#[tactic(auto, unfolding(sk_isa::specs::Offers::same_variant))]
fn is_offered(plan: &Plan, variant: Variant) -> bool
    ensures { result ≡ offers plan.now variant }
{
    plan.variants.as_slice().contains(&variant)
}

/// The variant and the number of parts of a call on `n` elements: those of the first rule of the plan's skeleton that goes
/// so far, or sequential in one part where there is none or the plan does not offer its variant. Takes time in proportion
/// to the rules.
pub fn choose(table: &Tuning, plan: &Plan, n: u64) -> (Variant, u32)
    ensures { result ≡ choice_of table.now plan.now n }
{
    let covering = table
        .rules
        .as_slice()
        .iter()
        .find(|rule| covers_call(rule, plan.skeleton, n));
    let Some(rule) = covering else {
        return (Variant::Sequential, 1);
    };
    if is_offered(plan, rule.variant) {
        (rule.variant, rule.parts)
    } else {
        (Variant::Sequential, 1)
    }
}
