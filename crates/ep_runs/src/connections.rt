//! Connections to a Unix stream socket that listens, worked out by the machine's definitions: on files, and by lists of
//! records that are runs but for the clause that refuses a connect to a listener.
ghost use Rattle.std.specs.Prelude.{Some, [], false, pos, true, ◌∷◌, ◌≡◌};
ghost use Rattle.ep_base.specs.Limits.{default_limits};
ghost use Rattle.ep_base.specs.declared.errno.Errno.TheVariants.{Eagain, Econnrefused, Econnreset, Einval, Epipe};
ghost use Rattle.ep_machine.specs.Connections.{listening_at};
ghost use Rattle.ep_machine.specs.Files.{under};
ghost use Rattle.ep_machine.specs.State.{opening};
ghost use Rattle.ep_runs.specs.ConnectionRuns.{connected, desert_run, deserted, early_run, goes_through, heard, loss_run};
ghost use Rattle.ep_runs.specs.ConnectionRuns.{queue_run, served, shown, the_name, turn_run};

/// connect(2): who listens at the name is found and shows IN, which is raised there; the client shows OUT only.
pub fn connects()
    ensures found { listening_at heard the_name ≡ Some 1 }
    ensures told { connected.1 ≡ (1, 1) ∷ [] }
    ensures listener { shown connected.0 1 ≡ 1 }
    ensures client { shown connected.0 2 ≡ 4 }
{}

/// accept(2): the second end gets the lowest free number and shows OUT, and the listener shows nothing any more.
pub fn accepts()
    ensures number { under served 1 (pos 5) ≡ Some 3 }
    ensures listener { shown served 1 ≡ 0 }
    ensures end { shown served 3 ≡ 4 }
{}

/// The last close(2) of a listener: IN, ERR, HUP and RDHUP are raised at a client that waits, which shows OUT as well.
pub fn listener_closes()
    ensures told { deserted.1 ≡ (2, 8217) ∷ [] }
    ensures client { shown deserted.0 2 ≡ 8221 }
{}

/// A server accepts, reads, and is told that its client went.
pub fn first_turn()
    ensures run { goes_through default_limits (Some opening) (turn_run Epipe) ≡ true }
    ensures no_run { goes_through default_limits (Some opening) (turn_run Eagain) ≡ false }
{}

/// A server closes with bytes unread: ECONNRESET, once.
pub fn unread_bytes()
    ensures run { goes_through default_limits (Some opening) (loss_run Econnreset) ≡ true }
    ensures no_run { goes_through default_limits (Some opening) (loss_run Epipe) ≡ false }
{}

/// A listener closes before it accepts: ECONNRESET, once, and nobody listens any more.
pub fn closed_listener()
    ensures run { goes_through default_limits (Some opening) (desert_run Econnrefused) ≡ true }
    ensures no_run { goes_through default_limits (Some opening) (desert_run Einval) ≡ false }
{}

/// A client writes and closes before it is accepted.
pub fn early_client()
    ensures run { goes_through default_limits (Some opening) (early_run Epipe) ≡ true }
    ensures no_run { goes_through default_limits (Some opening) (early_run Eagain) ≡ false }
{}

/// Two clients are accepted in the order in which they connected, through a copy of the listener's descriptor.
pub fn two_clients()
    ensures run { goes_through default_limits (Some opening) (queue_run Eagain) ≡ true }
    ensures no_run { goes_through default_limits (Some opening) (queue_run Einval) ≡ false }
{}
