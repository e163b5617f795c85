//! Theorems about labels: each function's clauses are its statement, and its body is empty.
ghost use Rattle.std.specs.Prelude.{◌≡◌, ℕ, List, Ok, Some};
ghost use Rattle.meter_theory.specs.Labels.{Labels};
ghost use Rattle.meter_theory.specs.Plan.{Plan};
ghost use Rattle.meter_theory.specs.Sound.{IsSound};
ghost use Rattle.label_certificate.specs.LabelLine.{LabelLine, IsLabelLine, label_line_at, line_text};
ghost use Rattle.label_certificate.specs.LabelText.{AreInPlanOrder, HaveByteNames, HaveClientsOf, labels_of_text, text_of_labels};

/// A line that is read is the one text of what it says, and the text of a line is read as what it says.
pub fn label_lines_have_one_text()
    ensures found { (line : List ℕ) (l : LabelLine) → label_line_at line ≡ Some l
        → IsLabelLine l × (line ≡ line_text l) }
    ensures only { (l : LabelLine) → IsLabelLine l → label_line_at (line_text l) ≡ Some l }
{}

/// Labels of a sound plan's cells, in plan order and with clients of the plan only, are read from their text. Names of
/// objects are of bytes, as those of every plan that a program holds.
pub fn written_labels_are_read()
    ensures { (P : Plan) (labels : Labels)
        → IsSound P → AreInPlanOrder P labels → HaveClientsOf P labels → HaveByteNames labels
        → labels_of_text P (text_of_labels P labels) ≡ Ok labels }
{}
