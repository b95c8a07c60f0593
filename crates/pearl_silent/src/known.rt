// What is known of every valid object.

ghost use Rattle.pearl_instructions.specs.Lawful.{IsObject};
ghost use Rattle.pearl_instructions.specs.Valid.{IsValid};
ghost use Rattle.pearl_silent.specs.Known.{Known};

use pearl_instructions::laws;
use pearl_instructions::valid::Valid;

/// That the object is valid, and the laws that a step rests on.
pub fn laws_hold(code: &Valid)
    ensures laws { Known }
    ensures object { IsObject code.now }
    ensures valid { IsValid code.now }
{
    code.object();
    laws::rows_lead_to_stacks();
    laws::offers_name_what_is_there();
    laws::stacks_are_a_tasks();
    laws::frames_stay();
    laws::depth_is_kept();
    laws::frames_are_few();
    laws::actions_are_offered_soon();
}
