//! The routines of an accepted set, with their names and their certificates.

ghost use Rattle.std.specs.Prelude.{◌≡◌, ◌++◌, List, IfOk, OnOk, Some, length, slice_get};
ghost use Rattle.std.specs.Vec.Iter.{into_iter_items, into_iter_len};
ghost use Rattle.model.specs.Sound.{DriverFits};
ghost use Rattle.report_json.specs.declared.verdict.CertifiedRoutine.{CertifiedRoutine};
ghost use Rattle.answer.specs.Check.{certified_before, certified_routines, with_names};

use model::set::Driver;
use report_json::verdict::CertifiedRoutine;
use std::alloc::{AllocError, Global};
use std::vec::IntoIter;
use verifier::Accepted;

/// The routines of an accepted set, by driver and then by number. The first of them has the first
/// of these names, and so on.
pub fn certified_routines(
    alloc: Global,
    accepted: &Accepted,
    names: Vec<String>,
) -> Result<Vec<CertifiedRoutine>, AllocError>
    ensures { IfOk result
        (λ routines. routines.items ≡ with_names (certified_routines accepted.now) names.items) }
{
    let mut names = names.into_iter();
    let mut routines = Vec::new(alloc);
    for (number, driver) in accepted.set().drivers().iter().enumerate() {
        add_routines(accepted, number as u8, driver, &mut names, &mut routines)?;
    }
    Ok(routines)
}

/// Adds the routines of the driver of a number.
fn add_routines(
    accepted: &Accepted,
    number: u8,
    driver: &Driver,
    names: &mut IntoIter<String>,
    routines: &mut Vec<CertifiedRoutine>,
) -> Result<(), AllocError>
    requires driver { slice_get accepted.now.drivers number ≡ Some driver.now }
    requires fits { DriverFits driver.now }
    requires left { into_iter_len names.old ≡ length (into_iter_items names.old) }
    ensures left { OnOk result (into_iter_len names.new ≡ length (into_iter_items names.new)) }
    ensures added { OnOk result ((later : List CertifiedRoutine)
        → routines.new.items ++ with_names later (into_iter_items names.new)
        ≡ routines.old.items ++ with_names
        (certified_before accepted.now number 0 driver.now.routines later)
        (into_iter_items names.old)) }
{
    for (place, routine) in driver.routines.as_slice().iter().enumerate() {
        routines.push(CertifiedRoutine {
            driver: number,
            routine: place as u8,
            name: names.next(),
            sort: routine.sort,
            certificate: accepted.cert(number, place as u8),
        })?;
    }
    Ok(())
}
