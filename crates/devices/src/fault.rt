//! That a device failed.

/// A device failed.
#[derive(Clone, Copy, Debug, PartialEq, Eq, thiserror::Error)]
#[error("the device failed")]
pub struct DeviceFault;
