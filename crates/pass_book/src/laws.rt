//! Laws of the definitions. The functions do nothing: their clauses are the laws.

ghost use Rattle.std.specs.Prelude.{◌≡◌, List};
ghost use Rattle.sas_task.specs.Task.{Task};
ghost use Rattle.sas_task.specs.Valid.{IsValid};
ghost use Rattle.sas_task.specs.Keeps.{Keeps};
ghost use Rattle.sas_restriction.specs.KeepsCosts.{KeepsCosts};
ghost use Rattle.pass_book.specs.declared.kind.PassKind.{PassKind};
ghost use Rattle.pass_book.specs.Passes.{Meets, IsChain};

/// What passes make of a valid task, of any kinds and one after the other, is valid and may stand for the task. Its
/// operators have the names and costs of the task's. It is one task.
pub fn passes_keep()
    ensures one_valid { (kind : PassKind) (old new : Task) → IsValid old → Meets kind old new → IsValid new }
    ensures one_stands { (kind : PassKind) (old new : Task) → IsValid old → Meets kind old new → Keeps old new }
    ensures valid { (kinds : List PassKind) (old new : Task) → IsValid old → IsChain kinds old new → IsValid new }
    ensures stands { (kinds : List PassKind) (old new : Task) → IsValid old → IsChain kinds old new → Keeps old new }
    ensures costs { (kinds : List PassKind) (old new : Task) → IsChain kinds old new → KeepsCosts old new }
    ensures one { (kinds : List PassKind) (old new other : Task) → IsChain kinds old new → IsChain kinds old other → new ≡ other }
{}
