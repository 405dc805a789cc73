//! Laws of the definitions. The functions do nothing: their clauses are the laws.

ghost use Rattle.std.specs.Prelude.{◌≡◌, ◌+◌, ◌<◌, ◌≤◌, ◌^◌, ◌↔◌, ◌++◌, List, ℕ, length, Ok, Some, None};
ghost use Rattle.sas_task.specs.Output.{text_of};
ghost use Rattle.sas_task.specs.Task.{Task};
ghost use Rattle.sas_task.specs.Valid.{IsValid};
ghost use Rattle.sas_reader.specs.declared.fault.SasFault.{SasFault};
ghost use Rattle.sas_reader.specs.Forms.{Unread, unread};
ghost use Rattle.sas_reader.specs.Text.{task, line_fault, IsTextOf, HasTask, whole_lines};

/// What is read is a valid task, and the text is that of the task, but for spaces at the end of operators' names.
pub fn texts()
    ensures valid { (bytes : List ℕ) (read : Task) (after : Unread) → task (unread bytes) ≡ Ok (read, after) → IsValid read }
    ensures text { (bytes : List ℕ) (read : Task) (after : Unread) → task (unread bytes) ≡ Ok (read, after) → IsTextOf bytes read }

    // The text that is written of a valid task is one of its texts.
    ensures own { (t : Task) → IsValid t → IsTextOf (text_of t) t }
{}

/// The first line that breaks its rule, in words of texts and tasks alone.
pub fn first_faults()
    // There is none exactly where the text is that of some valid task.
    ensures lawful { (bytes : List ℕ) → length bytes < 2 ^ 32 → (line_fault bytes ≡ None ↔ HasTask bytes) }

    // It is a whole line of the text, or what stands behind them.
    ensures within { (bytes : List ℕ) (fault : SasFault) → line_fault bytes ≡ Some fault → (1 ≤ fault.line) × (fault.line ≤ whole_lines bytes + 1) }

    // It doesn't rest on the lines after it: texts that begin with the same whole lines up to it all have it.
    ensures alike { (front one other : List ℕ) (fault : SasFault) →
        line_fault (front ++ one) ≡ Some fault → fault.line ≤ whole_lines front → line_fault (front ++ other) ≡ Some fault }

    // What stands before it has a fault of its own only where it ends: at the line that is missing or unfinished there.
    ensures before { (front more : List ℕ) (fault own : SasFault) → line_fault (front ++ more) ≡ Some fault → whole_lines front < fault.line →
        line_fault front ≡ Some own → own.line ≡ whole_lines front + 1 }

    // A text that begins with the lines up to it is that of no valid task.
    ensures hopeless { (front more : List ℕ) (fault : SasFault) → line_fault front ≡ Some fault → fault.line ≤ whole_lines front →
        length (front ++ more) < 2 ^ 32 → HasTask (front ++ more) → ⊥ }
{}
