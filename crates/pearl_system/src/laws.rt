// The lists of faults have what is broken, and a module's devices are those that it specifies.

ghost use Rattle.pearl_system.specs.Broken.{FaultsAreBroken};
ghost use Rattle.pearl_system.specs.Laws.{DevicesAreSpecified, HasOneDeviceList, SpecifiedMeansDevice};

/// The lists of the rules S10 to S14 have exactly the faults that a module has by what each says.
pub fn faults_are_broken_rules()
    ensures { FaultsAreBroken }
{}

/// A module has one list of devices.
pub fn one_device_list()
    ensures { HasOneDeviceList }
{}

/// A module's devices are those of its system part that it specifies by a name that breaks none of S11, S13 and S14: each once
/// by word and number, as the first such name says.
pub fn devices_are_specified()
    ensures { DevicesAreSpecified }
{}

/// Where none of S10 to S14 is broken, each specified name means a device of the module.
pub fn specified_means_device()
    ensures { SpecifiedMeansDevice }
{}
