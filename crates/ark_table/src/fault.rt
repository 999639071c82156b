use thiserror::Error;

/// Why a table was not read.
#[derive(Clone, Copy, Debug, Error)]
pub enum LoadFault {
    /// A read of the device failed.
    #[error("the device failed")]
    DeviceFault,
    /// The device holds no table: the first block that breaks a rule.
    #[error("the table is damaged at block {0}")]
    Damaged(u32),
    /// There was no memory to hold it.
    #[error("no memory")]
    Memory,
}
