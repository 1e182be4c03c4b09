//! All that turns change.
use crate::log::Log;
use crate::process::Process;
use bd_kernel::Disk;
use bd_medium::Medium;
use bd_tables::Tables;
use std::alloc::Global;

/// The parts of a machine that its turns change.
#[derive(Drop)]
pub(crate) struct Parts<T: Tables, M: Medium> {
    pub(crate) alloc: Global,
    pub(crate) disk: Disk<M>,
    pub(crate) tables: T,
    pub(crate) processes: Vec<Process<T::Pass>>,
    pub(crate) log: Log,
}
