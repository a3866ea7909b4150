ghost use Rattle.sk_main_scheme.specs.Objects.{UnmarkedObjectsStand};

/// A law: the object of a program without marks and operators, each of whose plans is run sequentially alone, stands for
/// the program.
pub fn unmarked_objects_stand()
    ensures { UnmarkedObjectsStand }
{}
