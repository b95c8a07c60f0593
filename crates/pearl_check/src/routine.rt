// Tasks and procedures, as the rules on statements tell them apart.

use pearl_tree::tree::TaskHead;
use pearl_tree::typing::Basic;

/// What a body belongs to.
#[derive(Clone, Copy)]
pub enum RoutineSort<'a> {
    Task(&'a TaskHead),
    /// With what stands in its RETURNS.
    Procedure(&'a Option<Basic>),
}
