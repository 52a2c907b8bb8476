// What a form of a script writes, and that the machine's reader accepts exactly that. There is nothing to compute here:
// each function stands for the theorem in its contract.
#![tactic(auto)]

ghost use Rattle.std.specs.Prelude.{◌≡◌, ℕ, ◌^◌, ◌<◌, List, Some, decimal};
ghost use Rattle.machine.specs.declared.forms.Form.{Form};
ghost use Rattle.machine.specs.Machine.{Machine};
ghost use Rattle.machine.specs.Forms.{form};
ghost use Rattle.machine.specs.Reading.{read_form};
ghost use Rattle.machine.specs.Script.{limit_of};
ghost use Rattle.form_texts.specs.Texts.{numeral, form_text};
ghost use Rattle.form_texts.specs.Capping.{capped};
ghost use Rattle.form_texts.specs.Examples.{FormsWritten};

// The machine reads a form of a line exactly where the line is what the form writes.
pub fn forms_are_read_as_written()
    ensures accepted { (line : List ℕ) (f : Form) → read_form line ≡ Some f → line ≡ form_text f }
    ensures complete { (line : List ℕ) (f : Form) → line ≡ form_text f → read_form line ≡ Some f }
{}

// A form whose large numbers are told as the largest of 32 bits does what the form does, refusals included, and sets the
// limit that it sets.
pub fn capping_changes_nothing()
    ensures done { (f : Form) (m : Machine) → form (capped f) m ≡ form f m }
    ensures limits { (f : Form) (ls : List ℕ) → limit_of (Some (capped f)) ls ≡ limit_of (Some f) ls }
{}

// A number of 64 bits is written as programs print it.
pub fn numerals_are_printed()
    ensures { (n : ℕ) → n < 2 ^ 64 → numeral n ≡ decimal n }
{}

// The forms of the worked example are written as they stand there.
pub fn examples_are_written()
    ensures { FormsWritten }
{}
