// The C face of the lookup: nothing but the call.
#![tactic(auto)]

ghost use Rattle.rules.specs.Lookups.{LooksUp};

#[unsafe(no_mangle)]
pub extern "C" fn hakkiyolu_lookup(register: &[u8], number: &[u8]) -> u64
    ensures { LooksUp register.now number.now result }
{
    lookup::hakkiyolu_lookup(register, number)
}
