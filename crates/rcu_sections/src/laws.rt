//! What holds of grace periods. A law is the contract of a function that does nothing.
ghost use Rattle.rcu_sections.specs.Grace.{SpareStays};

/// A grace period that is over stays over until the next publish, whatever the editor looks at
/// meanwhile.
pub fn spare_stays()
    ensures { SpareStays }
{}
