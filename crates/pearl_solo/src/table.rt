// What numbers name in an object.

ghost use Rattle.std.specs.Prelude.{◌≡◌, ◌<◌, ◌≤◌, ◌^◌, length};
ghost use Rattle.std.specs.List.{AllByRecursion};
ghost use Rattle.pearl_instructions.specs.Slots.{IsLeafAt};

use arrayvec::ArrayVec;
use pearl_instructions::object::Leaf;
use pearl_instructions::valid::Valid;

// A leaf, with the number of its first slot.
pub fn leaf_at(code: &Valid, v: u64) -> (&Leaf, u32)
    requires { v < length code.now.leaves }
    ensures { IsLeafAt code.now v result.0.now result.1 }
{
    let first = code.first_slot(v);
    (&code.object().leaves.as_slice()[v as usize], first)
}

// The numbers of semaphores.
pub fn semaphores(list: &[u64], numbers: &mut ArrayVec<u16, 16>)
    requires few { length list.now ≤ 16 }
    requires small { AllByRecursion (λ n. n < 2 ^ 16) list.now }
    ensures { numbers.new.items ≡ list.now }
{
    numbers.clear();
    for n in list {
        numbers.push(*n as u16);
    }
}
