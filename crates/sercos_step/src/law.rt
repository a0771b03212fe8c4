// Laws on the steps of a transfer, and on the number of its answers.
ghost use Rattle.std.specs.Prelude.{◌≡◌, ℕ, ◌%◌, ◌<◌, ◌≤◌, List, [], ◌∷◌, ◌++◌, length, true, false, is_some, slice_get};
ghost use Rattle.sercos_step.specs.Clauses.{AreBytes, Idn, Shape, Answer, Request, words_told, bytes_read, steps_of, next_step, outcome_of, AreAnswers, CountsAnswers, HasAtMost, AttributeTakes, ValueTakes, ListTakes, ValueWriteTakes, ListWriteTakes, CommandTakes, CommandTakesSteps, RequestTakes};
ghost use Rattle.sercos_step.specs.declared.shape.Shape.TheVariants as shape;
ghost use Rattle.sercos_step.specs.declared.request.Request.TheVariants as request;

/// States facts about the steps of a transfer:
/// - The first n + 1 steps are known from the words of n answers. They stay the same, regardless of the words that follow.
/// - A transfer without an outcome has a next step.
/// - If no answer follows the end of a transfer, any read has at most 517 answers, and so has a write of at most 1024 bytes.
/// - What is written reads back: a list of at most 1024 bytes, and a value of a positive even number of bytes.
pub fn steps_law()
    ensures known { (r : Request) (words : List ℕ) (word k : ℕ) → k ≤ length words →
        slice_get (steps_of r (words ++ word ∷ [])) k ≡ slice_get (steps_of r words) k }
    ensures next { (r : Request) (h : List Answer) → is_some (outcome_of r h) ≡ false → is_some (next_step r h) ≡ true }
    ensures read_ends { (idn : Idn) (e : ℕ) (h : List Answer) → AreAnswers (request.Read idn e) h → length h ≤ 517 }
    ensures write_ends { (idn : Idn) (e : ℕ) (bytes : List ℕ) (h : List Answer) → length bytes ≤ 1024 →
        AreAnswers (request.Write idn e bytes) h → length h ≤ 517 }
    ensures list { (bytes : List ℕ) → AreBytes bytes → length bytes ≤ 1024 → bytes_read shape.List (words_told shape.List bytes) ≡ bytes }
    ensures value { (s : Shape) (bytes : List ℕ) → (s ≡ shape.List → ⊥) → AreBytes bytes → length bytes % 2 ≡ 0 → 0 < length bytes →
        bytes_read s (words_told s bytes) ≡ bytes }
{}

/// States how many answers a transfer has, if none follows its end:
/// - A complete one has exactly the number that its request, the attribute and the words read determine.
/// - Any other has at most this number.
/// - A read of an attribute has at most three.
/// - A read of a minimum, a maximum or operation data has at most four if that has one word by the attribute. This is one of a value of one
///   word, an invalid one, or, for a minimum or a maximum, that of a list.
/// - A read of operation data has at most 5 + k if the attribute is that of a list, and its first word is a length of at most 2k bytes.
/// - A write of at most two bytes to operation data of one word has at most four.
/// - A write of at most 2k bytes to operation data that is a list has at most 5 + k.
/// - The answers of a command that ends in time, one in each period, take at most its time and four periods.
/// - So it has at most four, and one more for each whole period of its time, if the period isn't 0.
/// - A read, a write of at most 1024 bytes and a command that ends in time have at most 520, and one more for each unit of the time, if the
///   period isn't 0.
///
/// A command ends in time if its k-th data status, counted from 1, is that of a running command only while k periods are shorter than the
/// time.
pub fn counts_law()
    ensures complete { CountsAnswers }
    ensures most { HasAtMost }
    ensures attribute { AttributeTakes }
    ensures value { ValueTakes }
    ensures list { ListTakes }
    ensures value_write { ValueWriteTakes }
    ensures list_write { ListWriteTakes }
    ensures command { CommandTakes }
    ensures command_steps { CommandTakesSteps }
    ensures request { RequestTakes }
{}
