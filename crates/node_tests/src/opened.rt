//! A disk over a real folder, as tests hold it.
use base_outside::FolderDisk;
use std::test::Fail;

/// A disk over a folder. It is let go by one call wherever it is, which keeps proofs short.
pub struct Opened {
    pub disk: FolderDisk<HostRuntime>,
}

impl Drop for Opened {
    fn drop(self) {
        let Opened { disk } = self;
        drop(disk);
    }
}

impl Opened {
    /// That over this folder. An `Err` says why it can't be opened.
    pub fn new(rt: &HostRuntime, folder: &str) -> Result<Opened, Fail> {
        let disk = FolderDisk::new(rt.clone()?, folder)?;
        Ok(Opened { disk })
    }
}
