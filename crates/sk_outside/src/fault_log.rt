//! The faults of one kind of call, as the objects of this crate keep them.
ghost use Rattle.std.specs.Prelude.{◌≡◌, string_bytes};

use std::marker::Model;

/// How often a kind of call has failed, and the name that the last failed call was given.
#[derive(Drop)]
pub struct FaultLog {
    count: u64,
    name: Option<String>,
}

impl Model for FaultLog {
    ghost use Rattle.std.specs.Prelude.{string_bytes};
    ghost use Rattle.std.specs.Option.{option_map};
    ghost use Rattle.sk_outside.specs.Faults.{Faults};

    ghost Value = { Faults };

    ghost view = { λ log. record { count = log.count; name = option_map string_bytes log.name } };
}

impl FaultLog {
    ghost use Rattle.sk_outside.specs.Faults.{no_faults, one_more};

    /// No failed call so far.
    pub fn new() -> Self
        ensures { result ≡ no_faults }
    {
        FaultLog {
            count: 0,
            name: None,
        }
    }

    /// Notes one more failed call.
    pub fn note(&mut self, name: String)
        ensures { self.new ≡ one_more (string_bytes name) self.old }
    {
        self.count = self.count.saturating_add(1);
        self.name = Some(name);
    }
}
