//! The verdict on a driver set, and the type of the sets that are accepted.

ghost use Rattle.std.specs.Prelude.{◌≡◌, ◌≢◌, ◌⊎◌, IsSome, IfOk, IfErr, OnOk};
ghost use Rattle.model.specs.Certificate.{certificate_of};
ghost use Rattle.model.specs.Edition.{First, edition_of};
ghost use Rattle.model.specs.Set.{routine_of};
ghost use Rattle.model.specs.Sound.{DriverFits};
ghost use Rattle.model.specs.Typable.{IsTypable, IsTypableDriver, IsTypableUnder, IsFirstFault};
ghost use Rattle.model.specs.Typable.{IsFirstFaultUnder, at_start};
ghost use Rattle.verifier.specs.Certificates.{driver_certificates, AreCertificates};
ghost use Rattle.verifier.specs.Verdict.{IsRefusalOf, IsRefusalOfDriver};

use crate::routine::{at_start, check_over};
use crate::table::Table;
use driver_set::{DriverSet, Items};
use model::abs::{Refusal, Rule};
use model::limits::DEFAULT_ROUTINE;
use model::set::Driver;
use std::alloc::Global;
use std::marker::Model;

/// The certificate of the default routine, which completes its packet and returns.
const DEFAULT_CERTIFICATE: u32 = 2;

/// A driver set that is typable, with the certificates of its routines. Only [`verify`] makes one.
#[derive(Drop)]
pub struct Accepted {
    driver_set: DriverSet,
    certificates: Vec<Items<u32>>,
}

impl Model for Accepted {
    ghost use Rattle.model.specs.Set.{Set};
    ghost use Rattle.model.specs.Typable.{IsTypable};
    ghost use Rattle.verifier.specs.Certificates.{AreCertificates};

    ghost Value = { Set };

    ghost view = { λ a. a.driver_set };

    ghost invariant = { λ a. IsTypable a.driver_set
        × AreCertificates a.driver_set a.certificates.items };
}

impl Accepted {
    /// The set.
    pub fn set(&self) -> &DriverSet
        ensures same { result.now ≡ self.now }
        ensures typable { IsTypable self.now }
    {
        &self.driver_set
    }

    /// The certificate of a routine, the default routine's included: how many instructions an
    /// activation of it executes at most.
    pub fn cert(&self, driver: u8, routine: u8) -> u32
        requires { IsSome (routine_of self.now driver routine) }
        ensures { result ≡ certificate_of self.now driver routine }
    {
        if routine == DEFAULT_ROUTINE {
            return DEFAULT_CERTIFICATE;
        }
        self.certificates[driver as usize].as_slice()[routine as usize]
    }
}

/// Accepts a set exactly if it is typable, memory apart. Else it is handed back with its first
/// fault: of the least driver, of its least routine, at the least position, the least rule. Where
/// no memory is found the refusal says that, at driver 0, routine 0, position 0. A set of the first
/// edition is judged as its own rules would.
pub fn verify(alloc: Global, set: DriverSet) -> Result<Accepted, (DriverSet, Refusal)>
    ensures accepted { IfOk result (λ a. (a ≡ set) × IsTypable set) }
    ensures refused { IfErr result
        (λ e. (e.0 ≡ set) × ((e.1 ≡ at_start Rule.Memory) ⊎ IsFirstFault set e.1)) }
    ensures untypable { IfErr result (λ e. e.1.rule ≢ Rule.Memory → IsTypable set → ⊥) }
    ensures accepted_first { IfOk result (λ a. edition_of set ≡ 1 → IsTypableUnder First set) }
    ensures refused_first { IfErr result (λ e. edition_of set ≡ 1
        → (e.1 ≡ at_start Rule.Memory) ⊎ IsFirstFaultUnder First set e.1) }
{
    match check_set(alloc, &set) {
        Ok(certificates) => Ok(Accepted {
            driver_set: set,
            certificates,
        }),
        Err(refusal) => Err((set, refusal)),
    }
}

/// Accepts a set like [`verify`], and answers the certificates of its routines, by driver.
fn check_set(alloc: Global, set: &DriverSet) -> Result<Vec<Items<u32>>, Refusal>
    ensures typable { OnOk result (IsTypable set.now) }
    ensures certificates { IfOk result
        (λ certificates. AreCertificates set.now certificates.items) }
    ensures refused { IfErr result (IsRefusalOf set.now) }
{
    if set.devices().is_empty() {
        return Err(at_start(Rule::Malformed));
    }
    let drivers = set.drivers();
    let mut certificates = Vec::new(alloc);
    for (number, driver) in drivers.iter().enumerate() {
        let of_driver = match check_driver(alloc, set, number as u8, driver) {
            Ok(of_driver) => of_driver,
            Err(refusal) => return Err(refusal),
        };
        let Ok(()) = certificates.push(of_driver) else {
            return Err(at_start(Rule::Memory));
        };
    }
    Ok(certificates)
}

/// Accepts the driver of this number, of a set, exactly if all its routines are typable, memory
/// apart, and answers their certificates; else the refusal of the set.
fn check_driver(
    alloc: Global,
    set: &DriverSet,
    driver_number: u8,
    driver: &Driver,
) -> Result<Items<u32>, Refusal>
    requires { DriverFits driver.now }
    ensures typable { OnOk result (IsTypableDriver set.now driver_number driver.now) }
    ensures certificates { IfOk result
        (λ certificates. certificates ≡ driver_certificates driver.now) }
    ensures refused { IfErr result (IsRefusalOfDriver set.now driver_number driver.now) }
{
    let routines = driver.routines.as_slice();
    let mut certificates = Vec::new(alloc);
    let mut table = Table::new(alloc);
    for (number, routine) in routines.iter().enumerate() {
        let checked = match check_over(alloc, set, driver_number, number as u8, routine, table) {
            Ok(checked) => checked,
            Err(refusal) => return Err(refusal),
        };
        let Ok(()) = certificates.push(checked.certificate) else {
            return Err(at_start(Rule::Memory));
        };
        table = checked.table;
    }
    Ok(Items::of(certificates))
}
