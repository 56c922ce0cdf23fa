//! The published conditions, from their other side: what each of them shuts out. A condition that were weakened would make the
//! run theorem easier and this law false. The function does nothing: its contract is the law.
#![tactic(auto)]

ghost use Rattle.conditions.specs.Binding.{ConditionsBind};

/// Each published condition refuses what it is there to refuse, and a turn that is not right in any one of its parts is refused.
pub fn conditions_bind()
    ensures { ConditionsBind }
{}
