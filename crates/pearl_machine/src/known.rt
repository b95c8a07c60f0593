//! What is known of every valid object.

ghost use Rattle.pearl_instructions.specs.Lawful.{IsObject};
ghost use Rattle.pearl_instructions.specs.Valid.{IsValid};
ghost use Rattle.pearl_machine.specs.Known.{Known};

use pearl_instructions::runs;
use pearl_instructions::valid::Valid;

// That the object is valid, and the laws on which a task's steps rest.
pub fn laws_hold(code: &Valid)
    ensures laws { Known }
    ensures object { IsObject code.now }
    ensures valid { IsValid code.now }
{
    code.object();
    runs::tasks_begin();
    runs::answers_suit();
    runs::offers_name_what_is_there();
    runs::offers_fit_the_tables();
    runs::tables_are_lawful();
}
