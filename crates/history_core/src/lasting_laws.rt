// Laws of what lasts along a lawful history, each the contract of a function that does nothing.
ghost use Rattle.history_core.specs.Lasting.{BytesLast, DeletedStays, NumberOnce, OneOwner, TakenGone};

/// A number never has two versions.
pub fn number_once()
    ensures { NumberOnce }
{}

/// A member has one owner.
pub fn one_owner()
    ensures { OneOwner }
{}

/// A key once taken is never named again.
pub fn taken_gone()
    ensures { TakenGone }
{}

/// The bytes under a key never change.
pub fn bytes_last()
    ensures { BytesLast }
{}

/// A key that a client deleted, and was answered so, stays absent.
pub fn deleted_stays()
    ensures { DeletedStays }
{}
