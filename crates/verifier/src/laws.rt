//! Laws of the verdict, over its definitions alone. Nothing runs here: each law is the contract of
//! a function that does nothing.

ghost use Rattle.verifier.specs.FirstFault.{OneIsFirst, TypableHasNone};
ghost use Rattle.verifier.specs.FirstLaw.{FirstHasItsRows, RulesAgree, RoutinesAreOfFirst};
ghost use Rattle.verifier.specs.FirstLaw.{FormsAgree, EntriesAgree};
ghost use Rattle.verifier.specs.FirstLaw.{NoneWaitingArrives, ArrivalsAgree, RoutinesAgree};
ghost use Rattle.verifier.specs.FirstLaw.{RoutineFaultsAgree, VerdictsAgree};

/// Two first faults of a set are the same refusal, and no typable set has one: so a set is refused
/// in one way, and never where it could be accepted.
pub fn first_fault_is_one()
    ensures one { OneIsFirst }
    ensures none { TypableHasNone }
{}

/// A set of the first edition has the verdict that the rules of the first edition give it, with the
/// same first fault or the same certificates: in each of its routines the same is malformed, both
/// rules say the same of each instruction in each state that arrives there, and the same states
/// arrive. In none of them does a register hold a packet of the device queue.
pub fn first_edition_is_kept()
    ensures rows { FirstHasItsRows }
    ensures rules { RulesAgree }
    ensures of_first { RoutinesAreOfFirst }
    ensures forms { FormsAgree }
    ensures entries { EntriesAgree }
    ensures none { NoneWaitingArrives }
    ensures arrivals { ArrivalsAgree }
    ensures routines { RoutinesAgree }
    ensures routine_faults { RoutineFaultsAgree }
    ensures verdicts { VerdictsAgree }
{}
