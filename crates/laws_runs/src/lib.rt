//! Laws of runs: what holds of every run of an accepted set, whatever its threads and its events;
//! and what holds of any set's. Nothing runs here: each law is the contract of a function that does
//! nothing.
#![tactic(auto)]

ghost use Rattle.laws_runs.specs.AlikeRuns.{AlikeRunsGoOnAlike};
ghost use Rattle.laws_runs.specs.CarriedMark.{CarriedUp};
ghost use Rattle.laws_runs.specs.DoubledToken.{TokenDoubled};
ghost use Rattle.laws_runs.specs.HeldPacket.{HeldAndCompleted};
ghost use Rattle.laws_runs.specs.Holder.{PacketsHaveOneHolder};
ghost use Rattle.laws_runs.specs.KindsAgree.{AcceptedRunsKeepKinds};
ghost use Rattle.laws_runs.specs.Lifetime.{ActivationsKeepTheirCertificate};
ghost use Rattle.laws_runs.specs.NeverStops.{AcceptedRunsNeverStop};
ghost use Rattle.laws_runs.specs.NoWrong.{AcceptedRunsNeverGoWrong};
ghost use Rattle.laws_runs.specs.NothingSkipped.{NothingIsSkipped};
ghost use Rattle.laws_runs.specs.OneToken.{BusyDevicesHaveOneToken};
ghost use Rattle.laws_runs.specs.OwnLocks.{ThreadsOwnWhatTheirFramesSay};
ghost use Rattle.laws_runs.specs.PastTells.{PastTellsOfTheWorld};
ghost use Rattle.laws_runs.specs.PendingReturns.{AcceptedRunsAgreeOnPending};
ghost use Rattle.laws_runs.specs.Rest.{AcceptedRunsComeToRest};
ghost use Rattle.laws_runs.specs.RingAt.{AcceptedRingsAreAtOneDevice};
ghost use Rattle.laws_runs.specs.Rules.{AcceptedRunsKeepTheRules};
ghost use Rattle.laws_runs.specs.SharedMark.{SharedByBoth};
ghost use Rattle.laws_runs.specs.ToldTops.{TopOutsAreTold};
ghost use Rattle.laws_runs.specs.TopsOnce.{PacketsTopOutOnce};
ghost use Rattle.laws_runs.specs.Waits.{WaitingChangesNothing};

/// Of any set, accepted or not, until its run stops: a packet has topped out exactly where it was
/// issued and isn't live, the live packets are as the trace says, a thread holds a lock exactly
/// where it is its owner, and no thread has more than 32 frames.
#[tactic(auto, using(crate::proofs::Past::Runs::telling_runs))]
pub fn the_past_tells_of_the_world()
    ensures { PastTellsOfTheWorld }
{}

/// No run of an accepted set goes wrong: no operand is of a wrong kind, no
/// position is outside its routine, no loop instruction is without its loop, and an activation's
/// device is there with its locks and cells.
pub fn accepted_runs_never_go_wrong()
    ensures { AcceptedRunsNeverGoWrong }
{}

/// Every activation of an accepted set executes at most as many instructions as the certificate of
/// its routine.
pub fn activations_keep_their_certificate()
    ensures { ActivationsKeepTheirCertificate }
{}

/// Each live packet has one holder: a register that has the right to it, the I/O manager's frame
/// that completes it, a place in a queue, a start list or a device queue, a current slot, or its
/// cancel word; and it stands in at most one list. One that has topped out has none. Every
/// routine's frame stands inside its code.
#[tactic(auto, using(crate::proofs::Accepted::Laws::accepted_holders))]
pub fn packets_have_one_holder()
    ensures { PacketsHaveOneHolder }
{}

/// A busy device has one token: a packet for which StartIo has to begin, one in its current slot,
/// or a routine's frame that has to take the device on to the next packet. An idle one has none,
/// and no packet waits in its device queue.
#[tactic(auto, using(crate::proofs::Accepted::Laws::accepted_tokens))]
pub fn busy_devices_have_one_token()
    ensures { BusyDevicesHaveOneToken }
{}

/// Each register from which an instruction may take something, in every routine's frame, on top of
/// its thread or below, is of the kind that the verifier gave it: a number, a status, or a packet
/// that is live.
#[tactic(auto, using(crate::proofs::Accepted::Laws::accepted_kinds))]
pub fn registers_are_of_their_kinds()
    ensures { AcceptedRunsKeepKinds }
{}

/// A thread owns exactly the locks that the state of its top frame says: of a routine's, those that
/// the verifier found held where the frame stands, of IoCancelIrp's the system cancel spin lock
/// once it took it, and none else. So an idle thread owns none, and no frame below the top one
/// holds any.
#[tactic(auto, using(crate::proofs::Accepted::OwnLocks::accepted_owners))]
pub fn threads_own_what_their_frames_say()
    ensures { ThreadsOwnWhatTheirFramesSay }
{}

/// No run of an accepted set stops: there is no bug check of any kind, nothing goes wrong, and no
/// step of a thread is refused.
pub fn accepted_runs_never_stop()
    ensures { AcceptedRunsNeverStop }
{}

/// No packet tops out twice.
#[tactic(auto, using(crate::proofs::Accepted::Laws::accepted_tops))]
pub fn packets_top_out_once()
    ensures { PacketsTopOutOnce }
{}

/// Nothing that counts of instructions and pending agreement go by is missing: each frame has a tag
/// of its own, and a dispatch routine's names the use that it serves; a live packet has as many
/// uses as it is deep; an entry of an executed instruction names its activation, of a return its
/// use, and of a mark, a leave, an issue or a call its location.
pub fn nothing_is_skipped()
    ensures { NothingIsSkipped }
{}

/// Every run of an accepted set keeps all these rules.
pub fn accepted_runs_keep_the_rules()
    ensures { AcceptedRunsKeepTheRules }
{}

/// Dispatch routines return STATUS_PENDING exactly where their stack location was marked pending
/// when completion left it.
#[tactic(auto, using(crate::proofs::Accepted::Laws::accepted_agree))]
pub fn pending_returns_agree()
    ensures { AcceptedRunsAgreeOnPending }
{}

/// Two runs of an accepted set that a machine may not tell apart go on alike: after an event it may
/// not tell them apart either, and both answer the same. So nothing goes by whether the I/O manager
/// has a packet, by what a register holds from which no instruction may take anything, or in which
/// a lower driver's status will be told, or by which packet a frame of the I/O manager had that has
/// topped out.
pub fn alike_runs_go_on_alike()
    ensures { AlikeRunsGoOnAlike }
{}

/// Of any set: an event that waits, finds nothing to do or is refused leaves the world as it was.
#[tactic(auto, using(crate::proofs::History::Waits::waits_same))]
pub fn waiting_changes_nothing()
    ensures { WaitingChangesNothing }
{}

/// Of any set: the packet that a request started is live exactly while no reply of the history
/// tells that it topped out.
#[tactic(auto, using(crate::proofs::History::ToldTops::told_tops))]
pub fn top_outs_are_told()
    ensures { TopOutsAreTold }
{}

/// A worked run in which a mark is carried up, as a check of the definitions: both locations are
/// left marked, and STATUS_PENDING is returned from both.
pub fn a_mark_is_carried_up()
    ensures { CarriedUp }
{}

/// A worked run in which two routines share a stack location: it is left marked, and both return
/// STATUS_PENDING.
#[tactic(auto, using(crate::proofs::Prelude::refl))]
pub fn a_mark_is_shared()
    ensures { SharedByBoth }
{}

/// A worked run in which a DPC routine gives the token away twice, by `next` and by `begin`: the
/// device then has a current packet and another one to be started. The local rule refuses that
/// `begin`.
#[tactic(auto, using(crate::proofs::Prelude::refl))]
pub fn a_token_is_doubled()
    ensures { TokenDoubled }
{}

/// A worked run in which a completion routine holds a packet that was completed below, and a DPC
/// routine completes it again: nothing stops the run, and the packet tops out.
#[tactic(auto, using(crate::proofs::Prelude::refl))]
pub fn a_held_packet_is_completed_again()
    ensures { HeldAndCompleted }
{}

/// In any run of an accepted set each event that begins something brings about only so many steps
/// that change anything, a number of the set. From the world of any run only so many change
/// anything before another event comes. Where the locks of each driver stand in an order in which
/// its routines take them, no threads wait for each other's locks in a ring, while any thread has
/// frames one with frames goes on, and all threads are idle after so many rounds of steps, in each
/// of which every thread has a turn: every routine ends.
pub fn accepted_runs_come_to_rest()
    ensures { AcceptedRunsComeToRest }
{}

/// Of any accepted set: threads that wait for each other in a ring are all in routines for one
/// device, and where each stands its routine takes the lock that it waits for under the one that it
/// is waited for; so they show a cycle in the order of its driver.
pub fn accepted_rings_are_at_one_device()
    ensures { AcceptedRingsAreAtOneDevice }
{}
