// The tables that a run starts from.

use arrayvec::ArrayVec;
use pearl_format::item::Item;
use pearl_value::cell::Cell;
use pearl_value::device::Device;
use pearl_value::listing::Listing;

/// A task as it is declared. A smaller number is a more urgent priority, from 1 to 255.
#[derive(Drop)]
pub struct TaskEntry {
    pub name: ArrayVec<u8, 63>,
    pub priority: u8,
    /// Whether the task is started when the run begins.
    pub main: bool,
}

/// The tables that a run starts from. A device is named by its number in the list of devices, likewise tasks, slots,
/// semaphores and formats. A slot holds a value of a module variable; its first value stands here, and of a semaphore
/// its first count, at most 2^31 - 1.
#[derive(Drop)]
pub struct Setup {
    pub tasks: Listing<TaskEntry>,
    pub slots: Listing<Cell>,
    pub semaphores: Listing<u32>,
    pub devices: Listing<Device>,
    pub formats: Listing<Listing<Item>>,
}
