// What holds of first values, and of the leaves, devices, formats and presets of a program.

ghost use Rattle.pearl_sound_data.specs.Laws.{ConstantsArePut, ConstantsBecomeValues, DevicesAreSound, FormatsAreSound, InitFillsNames, InitFillsSlots, InitGoesOn, InitRenewsNames, InitRenewsVariables, LeavesAreSound, LeavesHaveFirstValues, ModulesHaveConstants, PresetsAreSmall, TablesAreSound};

/// Whatever a constant of INIT is put into, it becomes a value of that kind.
pub fn constants_become_values()
    ensures { ConstantsBecomeValues }
{}

/// In a lawful tree that breaks no rule on names and types all constants of INIT are values.
pub fn modules_have_constants()
    ensures { ModulesHaveConstants }
{}

/// Each leaf of a program has first values of its kind.
pub fn leaves_have_first_values()
    ensures { LeavesHaveFirstValues }
{}

/// The devices of a program are sound, and stand in order.
pub fn devices_are_sound()
    ensures { DevicesAreSound }
{}

/// What semaphores have at first is below 2^31, where S9 isn't broken.
pub fn presets_are_small()
    ensures { PresetsAreSmall }
{}

/// The items of all formats have widths that suit them, where S33 isn't broken.
pub fn formats_are_sound()
    ensures { FormatsAreSound }
{}

/// In a lawful tree that breaks no rule all leaves are sound.
pub fn leaves_are_sound()
    ensures { LeavesAreSound }
{}

/// In a lawful tree that breaks no rule all tables are sound, apart from tasks and procedures.
pub fn tables_are_sound()
    ensures { TablesAreSound }
{}

/// The slots of a variable hold at first what INIT puts into them.
pub fn init_fills_slots()
    ensures { InitFillsSlots }
{}

/// The slots of names that the module declares together hold what INIT puts into them one after the other.
pub fn init_fills_names()
    ensures { InitFillsNames }
{}

/// The cells of a local variable get what INIT puts into its slots.
pub fn init_renews_variables()
    ensures { InitRenewsVariables }
{}

/// The cells of names that are declared together in a body get what INIT puts into their slots one after the other.
pub fn init_renews_names()
    ensures { InitRenewsNames }
{}

/// In the slots behind some INIT goes on with what these leave.
pub fn init_goes_on()
    ensures { InitGoesOn }
{}

/// Where S7 isn't broken in an item, each constant suits the slots that it is put into, and none is left out.
pub fn constants_are_put()
    ensures { ConstantsArePut }
{}
