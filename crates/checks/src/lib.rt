// Checks 1 to 5 of an hour's record, in their order: form, range, order, curve, seconds; of a generator's, and of an internal controllable
// line's. Of an import's block all but curve.
#![tactic(auto)]

ghost use Rattle.std.specs.Prelude.{◌≡◌};
ghost use Rattle.tariff.specs.Reply.{shown};
ghost use Rattle.tariff.specs.Hour.{block_fault};
ghost use Rattle.tariff.specs.Controllable.{icl_fault};
ghost use Rattle.tariff.specs.Import.{import_fault};

use tariff::{Check, Expected, Hour, IclHour, ImportHour};

mod controllable;
mod curtailed;
mod faults;

// The first of the faults 1 to 5.
pub fn block_fault(h: Hour, expected: Expected) -> Result<(), Check>
    ensures { shown result ≡ block_fault h expected }
{
    faults::form_fault(h.da, h.rt, h.n)?;
    faults::range_fault(h, expected)?;
    faults::order_or_curve_fault(h.hour, h.da, h.rt, expected)?;
    faults::seconds_fault(h)
}

// The same of an internal controllable line's hour.
pub fn icl_fault(h: IclHour, expected: Expected) -> Result<(), Check>
    ensures { shown result ≡ icl_fault h expected }
{
    faults::form_fault(h.da, h.rt, h.n)?;
    controllable::range_fault(h, expected)?;
    faults::order_or_curve_fault(h.hour, h.da, h.rt, expected)?;
    controllable::seconds_fault(h)
}

// The first of the faults 1, 2, 3 and 5 of the import's block at place k of a day of so many hours.
pub fn import_fault(h: ImportHour, k: usize, hours: usize) -> Result<(), Check>
    ensures { shown result ≡ import_fault hours h k }
{
    curtailed::form_fault(h)?;
    curtailed::range_fault(h, hours)?;
    curtailed::order_fault(h, k)?;
    curtailed::seconds_fault(h)
}
