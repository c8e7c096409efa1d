ghost use Rattle.std.specs.Prelude.{◌≡◌, ℕ, List, Bool, Option};
ghost use Rattle.mail_base.specs.declared.config.Config.{Config};
ghost use Rattle.mail_base.specs.declared.mailer.Mailer.{Mailer};
ghost use Rattle.mail_base.specs.declared.route.Resolved.{Resolved};
ghost use Rattle.mail_base.specs.declared.route.RouteError.{RouteError};
ghost use Rattle.map_tables.specs.Answers.{Loaded};
ghost use Rattle.ruleset_run.specs.Sites.{Macros};
ghost use Rattle.addr_route.specs.Checks.{Checks};
ghost use Rattle.addr_route.specs.Routes.{Routes};
ghost use Rattle.addr_route.specs.Senders.{Sends};

use ruleset_run::{each_run_ends, one_outcome};

/// An address has a route, whatever the configuration, the maps and the macros are.
pub fn some_route()
    ensures { (config : Config) (maps : Loaded) (macros : Macros) (address : List ℕ) (leaf : Bool)
        → (resolved : Resolved) × Routes config maps macros address leaf resolved }
{
    // A law: a run has an outcome.
    each_run_ends();
}

/// It has one alone.
pub fn one_route()
    ensures { (config : Config) (maps : Loaded) (macros : Macros) (address : List ℕ) (leaf : Bool)
        (one another : Resolved)
        → Routes config maps macros address leaf one
        → Routes config maps macros address leaf another → one ≡ another }
{
    // A law: a run has one outcome.
    one_outcome();
}

/// A mailer is given one sender for the sender of a message.
pub fn one_sender()
    ensures { (config : Config) (maps : Loaded) (macros : Macros) (mailer : Mailer)
        (sender : List ℕ) (one another : List ℕ)
        → Sends config maps macros mailer sender one
        → Sends config maps macros mailer sender another → one ≡ another }
{
    // A law: a run has one outcome.
    one_outcome();
}

/// A check set says one thing of an address.
pub fn one_check()
    ensures { (config : Config) (maps : Loaded) (macros : Macros) (set address : List ℕ)
        (one another : Option RouteError)
        → Checks config maps macros set address one
        → Checks config maps macros set address another → one ≡ another }
{
    // A law: a run has one outcome.
    one_outcome();
}
