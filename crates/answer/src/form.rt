//! How what was found is said.

ghost use Rattle.std.specs.Prelude.{ℕ, List, IfOk};
ghost use Rattle.model.specs.Set.{Set};
ghost use Rattle.model.specs.Typable.{IsFirstFault, IsTypable};
ghost use Rattle.drvhost_devices.specs.Answer.{Answer};
ghost use Rattle.answer.specs.Told.{IsFaultIn};

use drvhost_devices::told::Told;
use image::DriverSet;
use model::abs::Refusal;
use report_json::fault::InputFault;
use std::alloc::{AllocError, Global};
use verifier::Accepted;

/// How it is said of the file of a set that it can't be opened or read or is faulty, or that its set
/// is refused or accepted: the right answers by its name, its bytes and its set.
pub trait Form {
    ghost is_unopened: { Self → List ℕ → Answer → Type 0 };

    ghost is_unread: { Self → List ℕ → Answer → Type 0 };

    ghost is_faulty: { Self → List ℕ → List ℕ → Answer → Type 0 };

    ghost is_refused: { Self → List ℕ → List ℕ → Set → Answer → Type 0 };

    ghost is_accepted: { Self → List ℕ → List ℕ → Set → Answer → Type 0 };

    /// The file of a name can't be opened.
    fn unopened(&self, alloc: Global, name: &str) -> Result<Told, AllocError>
        ensures { IfOk result (is_unopened self.now name.now) };

    /// A read of it failed.
    fn unread(&self, alloc: Global, name: &str) -> Result<Told, AllocError>
        ensures { IfOk result (is_unread self.now name.now) };

    /// Its bytes have this fault.
    fn faulty(
        &self,
        alloc: Global,
        name: &str,
        bytes: &[u8],
        fault: InputFault,
    ) -> Result<Told, AllocError>
        requires { IsFaultIn bytes.now fault }
        ensures { IfOk result (is_faulty self.now name.now bytes.now) };

    /// Its set is refused.
    fn refused(
        &self,
        alloc: Global,
        name: &str,
        bytes: &[u8],
        set: &DriverSet,
        refusal: &Refusal,
    ) -> Result<Told, AllocError>
        requires { IsFirstFault set.now refusal.now }
        ensures { IfOk result (is_refused self.now name.now bytes.now set.now) };

    /// Its set is accepted.
    fn accepted(
        &self,
        alloc: Global,
        name: &str,
        bytes: &[u8],
        accepted: &Accepted,
    ) -> Result<Told, AllocError>
        requires { IsTypable accepted.now }
        ensures { IfOk result (is_accepted self.now name.now bytes.now accepted.now) };
}
