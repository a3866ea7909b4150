use sk_base::Ty;
use sk_tree::ParamKind;
use sqlite_items::Items;

/// What an expression leaves: the type of its value, and the most values that stand on the stack while it is evaluated.
#[derive(Clone, Copy)]
pub struct Given {
    pub ty: Ty,
    pub depth: usize,
}

/// What is done with the values of parts.
#[derive(Clone, Copy)]
pub enum Use {
    /// Nothing is compiled, neither the parts nor anything behind them.
    Nothing,
    /// They are left.
    Left,
    /// The element there of a parameter, or of a container in main.
    Item(u32),
    /// The element there of a region.
    Region(u32),
    /// The arguments of a function.
    Call(u32),
    /// The uniform arguments of an instance, which takes the parts before them as containers.
    Get(u32),
}

/// What an application is by its name: the type of its value, how many parts stand in front as containers, which push
/// nothing, the kinds of parameters that the other parts are for, and what is done with their values.
#[derive(Drop)]
pub struct Applied {
    pub ty: Ty,
    pub passed: usize,
    pub kinds: Items<ParamKind>,
    pub used: Use,
}
