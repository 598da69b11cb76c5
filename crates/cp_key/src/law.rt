//! What the keys tell.

ghost use Rattle.std.specs.Prelude.{◌≡◌, length};
ghost use Rattle.cp_machine.specs.Machine.{Machine};
ghost use Rattle.cp_key.specs.Key.{core_key, key_of};

/// States of one key are one.
pub fn law_key()
    ensures { (m n : Machine) → key_of m ≡ key_of n → m ≡ n }
{}

/// States whose cores have one key are the same but for the values that they displayed, and these are as many.
pub fn law_core()
    ensures same { (m n : Machine) → core_key m ≡ core_key n → n ≡ record m { output = n.output } }
    ensures count { (m n : Machine) → core_key m ≡ core_key n → length m.output ≡ length n.output }
{}
