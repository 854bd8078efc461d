//! Laws of worlds whose packets stand in slots, as a machine keeps them that tests nothing of what
//! an accepted set can never do: what an event does to the slots shows what it does in every run of
//! the set. Nothing runs here: each law is the contract of a function that does nothing.
#![tactic(auto)]

ghost use Rattle.laws_slots.specs.Done.{DoneShowsRuns};
ghost use Rattle.laws_slots.specs.Fits.{EventsFit};
ghost use Rattle.laws_slots.specs.GoOn.{FreeSlotsMeanTheBeginning, SlotEventsShowRuns};
ghost use Rattle.laws_slots.specs.ShownSlots.{SlotsShowWhatTheyMean};
ghost use Rattle.laws_slots.specs.ShownWords.{WordsMeanWhatTheyShow, WordsShowWhatTheyMean};
ghost use Rattle.laws_slots.specs.ShownWords.{WordsTellRegisters};
ghost use Rattle.laws_slots.specs.WordViews.{WordsTellAsSlots};
ghost use Rattle.laws_slots.specs.WordsDone.{FreeWordsMeanTheBeginning, WordEventsShowRuns};
ghost use Rattle.laws_slots.specs.WordsFit.{WordEventsFit};

pub mod activation;

pub use activation::WordActivation;

/// Free slots, with idle threads, mean the world before the first event.
pub fn free_slots_mean_the_beginning()
    ensures { FreeSlotsMeanTheBeginning }
{}

/// Of an accepted set: where slots mean the world of a run, after an event on the slots they mean
/// the run's world with that event added, and it is answered as the run answers it. A step of a
/// thread on slots looks for nothing that could be wrong. A request's packet is put into any slot
/// that is free.
pub fn slot_events_show_runs()
    ensures { SlotEventsShowRuns }
{}

/// The same of an event that was carried out where slots may be added: a request's packet is in any
/// slot that had none, be it a new one, and every other event did exactly what the slots say.
pub fn done_events_show_runs()
    ensures { DoneShowsRuns }
{}

/// Of an accepted set: where slots mean the world of a run, each event finds what it looks for. The
/// thread that steps has room for another frame; a routine on top of it has an instruction, with
/// numbers and keys of used slots in the registers that this reads, and a queue, lock, loop or
/// lower device wherever this wants one, with room for what is put there. So who carries events
/// out on slots need test none of it.
pub fn events_fit()
    ensures { EventsFit }
{}

/// Slots show each world that they mean, in the way that a machine of accepted sets shows one.
pub fn slots_show_what_they_mean()
    ensures { SlotsShowWhatTheyMean }
{}

/// Free slots, with idle threads, mean the world before the first event.
pub fn free_words_mean_the_beginning()
    ensures { FreeWordsMeanTheBeginning }
{}

/// Of an accepted set: where words mean the world of a run, after an event was carried out they
/// mean the run's world with that event added, and it is answered as the run answers it. A step of
/// a thread on words asks of none whether it is a number, a status or a key.
pub fn word_events_show_runs()
    ensures { WordEventsShowRuns }
{}

/// Of an accepted set: where words mean the world of a run, each event finds what it looks for. A
/// routine on top of the thread that steps has an instruction, with keys of used slots and statuses
/// in the registers where this reads one, and a queue, lock, loop or lower device wherever it wants
/// one, with room for what is put there. So who carries events out on words need test none of it.
pub fn word_events_fit()
    ensures { WordEventsFit }
{}

/// Words show each world that they mean, in the way that a machine of accepted sets shows one.
pub fn words_show_what_they_mean()
    ensures { WordsShowWhatTheyMean }
{}

/// Of an accepted set: words that mean the world of a run mean that of each run that they show.
/// They don't say what they are, but in every run the verifier's kinds do, and those go by where a
/// frame stands.
pub fn words_mean_what_they_show()
    ensures { WordsMeanWhatTheyShow }
{}

/// The words of a routine on the top of a thread tell what its registers have, wherever an
/// instruction may take something from them: a word as a number, a status or a packet, whichever of
/// these stands there.
pub fn words_tell_registers()
    ensures { WordsTellRegisters }
{}

/// What there is to tell of a thread, a packet and a device is what the slots tell that the words
/// are read as: registers play no part in it.
pub fn words_tell_as_slots()
    ensures { WordsTellAsSlots }
{}
