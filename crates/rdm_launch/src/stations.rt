//! A port with its passes, as the threads of a launch take turns with it.
ghost use Rattle.std.specs.Prelude.{◌≡◌};

use rdm_inbox::PortPasses;
use rdm_port::Port;
use rdm_turn::Tagged;
use std::marker::{Brand, PhantomData};

/// Which launch it is: over which inboxes, and of which ports. Each launch picks it.
pub trait Naming {
    ghost use Rattle.std.specs.Prelude.{List};
    ghost use Rattle.rdm_inbox.specs.Passes.{InboxState};
    ghost use Rattle.rdm_port.specs.Views.{PortView};

    /// The queues of the inboxes.
    ghost tables: { List InboxState };

    /// The ports before any step.
    ghost starts: { List PortView };
}

impl Naming for Brand {
    ghost use Rattle.std.specs.Prelude.{[]};

    ghost tables = { [] };

    ghost starts = { [] };
}

/// A port with its passes. It must be spent.
pub struct Station<J: Naming> {
    pub port: Port,
    pub passes: PortPasses,
    pub of: PhantomData<J>,
}

impl<J: Naming> Tagged for Station<J> {
    ghost use Rattle.rdm_launch.specs.Fitting.{FitsPlace};

    ghost fits = { λ s i. FitsPlace J.tables J.starts s.port s.passes i };
}
