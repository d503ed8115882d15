//! What the promises of several calls say together. Each law is the contract of a function that does nothing.

ghost use Rattle.std.specs.Prelude.{ℕ, List};
ghost use Rattle.ports.specs.Outside.{Files};
ghost use Rattle.topo_cli.specs.declared.status.Status.TheVariants.{Done};
ghost use Rattle.topo_cli.specs.Call.{Call};
ghost use Rattle.topo_cli.specs.Outcome.{IsPromised, Wrote};
ghost use Rattle.topo_cli.specs.RoundTrip.{IsRoundTrip};

/// What `query` writes over the file that `build` left is what `ask` writes over the same tables.
pub fn queries_answer_as_asks()
    ensures { (dir file script : List ℕ) (files : Files) (built asked queried : Call)
        → IsRoundTrip dir file script files built asked queried → IsPromised built Done → IsPromised asked Done
        → IsPromised queried Done → (text : List ℕ) × Wrote asked text × Wrote queried text }
{}
