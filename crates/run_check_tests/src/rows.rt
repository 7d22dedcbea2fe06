// Tables of damages.
use crate::damages::Damage;
use crate::finished::Finished;
use std::alloc::Global;
use std::process::Abort;
use std::test::Fail;

// Damages of the finished run, one after another, and the line of its check.
pub(crate) type Row = (&'static [Damage], &'static [u8]);

// Each line, with the status 0 where it begins with `legal`, else 8.
pub(crate) fn check_rows(rt: &impl Abort, alloc: Global, rows: &[Row]) -> Result<(), Fail> {
    for (damages, line) in rows {
        let mut run = Finished::new(alloc)?;
        for damage in *damages {
            run.damage(*damage)?;
        }
        let answer = run.check()?;
        assert_eq!(rt; answer.text(), *line, "{damages:?}");
        let status = if line.starts_with(b"legal") { 0 } else { 8 };
        assert_eq!(rt; answer.status, status, "{damages:?}");
    }
    Ok(())
}
