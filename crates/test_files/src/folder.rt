// A temporary folder of a test's own.
use std::fs::{create_dir, read_dir, remove_dir_all};
use std::path::PathBuf;
use std::test::Fail;
use std::{env, process};

/// A folder that one test works in.
#[derive(Drop)]
pub struct Folder<'a> {
    rt: &'a HostRuntime,
    path: PathBuf,
}

impl<'a> Folder<'a> {
    /// Makes the folder of this test, empty.
    pub fn new(rt: &'a HostRuntime, test: &str) -> Result<Self, Fail> {
        let mut path = env::temp_dir(rt)?;
        let id = process::id(rt.process());
        let name = format!(in rt.alloc(); "nvmetd-{test}-{id}")?;
        path.push(name.as_str())?;
        create_dir(rt, path.as_path())?;
        Ok(Folder { rt, path })
    }

    /// The whole name of a file in it.
    pub fn name(&self, file: &str) -> Result<String, Fail> {
        let path = self.path.join(self.rt.alloc(), file)?;
        Ok(path.into_string())
    }

    /// How many names stand in it.
    pub fn count(&self) -> Result<usize, Fail> {
        let mut count = 0usize;
        for entry in read_dir(self.rt, self.path.as_path())? {
            let _entry = entry?;
            count = count.saturating_add(1);
        }
        Ok(count)
    }

    /// Removes it with all in it.
    pub fn remove(self) -> Result<(), Fail> {
        remove_dir_all(self.rt, self.path.as_path())?;
        Ok(())
    }
}
