// The whole tool: the words, the source, the answer, the sink.
ghost use Rattle.std.specs.Prelude.{◌≡◌, ◌⊎◌, Some, None, Ok, Err, IfOk, IfErr, map, string_bytes};
ghost use Rattle.hv_ports.specs.Causes.{Rose};
ghost use Rattle.hv_words.specs.Taken.{Asked, Taken};
ghost use Rattle.hv_words.specs.Answers.{asked_of};
ghost use Rattle.hv_words.specs.Answers as order;
ghost use Rattle.hv_driver.specs.Delivers.{Delivers};
ghost use Rattle.hv_driver.specs.Answer.{AnswersFile, IfAnswered, UnlessNoMemory, file_of, usage_line};

use crate::Status;
use crate::answer::answer;
use crate::read::{ReadEnd, read_file};
use crate::write::deliver;
use hv_ports::{Sink, Source};
use hv_words::{Order, WordsEnd, read_words};
use std::alloc::Global;

fn file_of(order: &Order) -> &str
    ensures { result.now ≡ file_of (asked_of order.now) }
{
    match order {
        Order::Check { file } => file.as_str(),
        Order::Show { file } => file.as_str(),
        Order::Plain { file, .. } => file.as_str(),
        Order::Run { file, .. } => file.as_str(),
    }
}

// The order that the words ask for, or the status where they give none.
fn order_of(alloc: Global, words: &[String]) -> Result<Order, Status>
    ensures taken { IfOk result (λ it. order.Answers (map string_bytes words.now) (Ok it)) }
    ensures usage_only { result ≡ Err Status.Usage → (asked : Asked) → Taken (map string_bytes words.now) asked → ⊥ }
    ensures ends { IfErr result (λ status. (status ≡ Status.Usage) ⊎ (status ≡ Status.NoMemory)) }
{
    match read_words(alloc, words) {
        Ok(order) => Ok(order),
        Err(WordsEnd::NoMemory) => Err(Status::NoMemory),
        Err(WordsEnd::Usage) => Err(Status::Usage),
    }
}

/// Does what the words say, and answers how it ended.
pub fn alone<S: Source, K: Sink>(
    alloc: Global,
    words: &[String],
    src: &mut S,
    out: &mut K,
) -> Status
    requires { S.asked src.old ≡ None }

    // The words aren't taken: no source is touched, and the usage line is written.
    ensures usage_only { result ≡ Status.Usage → (asked : Asked) → Taken (map string_bytes words.now) asked → ⊥ }
    ensures untaken { ((asked : Asked) → Taken (map string_bytes words.now) asked → ⊥) → (src.new ≡ src.old) × UnlessNoMemory result
        (Delivers Status.Usage result usage_line (K.written out.old) (K.written out.new) (K.faults out.old) (K.faults out.new)) }

    // The words are taken, the file was read, and there was memory: the answer for its bytes was written.
    ensures answer { (asked : Asked) → Taken (map string_bytes words.now) asked → IfAnswered result
        (AnswersFile asked (S.files src.old (file_of asked)) (S.left src.new) result (K.written out.old) (K.written out.new) (K.faults out.old) (K.faults out.new)) }

    // When a fault may be answered, and what was written then.
    ensures source_fault { result ≡ Status.SourceFault → Rose (S.faults src.old) (S.faults src.new) × (out.new ≡ out.old)
        × ((asked : Asked) × Taken (map string_bytes words.now) asked × (S.asked src.new ≡ Some (file_of asked))) }
    ensures sink_fault { result ≡ Status.SinkFault → Rose (K.faults out.old) (K.faults out.new) }
    ensures no_memory { result ≡ Status.NoMemory → out.new ≡ out.old }
{
    let order = match order_of(alloc, words) {
        Ok(order) => order,
        Err(Status::Usage) => {
            return deliver(
                out,
                Status::Usage,
                b"usage: hv check|show|plain|run|replay|gen\n",
            );
        }
        Err(_) => return Status::NoMemory,
    };
    match read_file(alloc, file_of(&order), src) {
        Err(ReadEnd::Fault) => Status::SourceFault,
        Err(ReadEnd::Memory) => Status::NoMemory,
        Ok(source) => match answer(alloc, &order, source.as_slice()) {
            Err(_) => Status::NoMemory,
            Ok((status, text)) => deliver(out, status, text.as_slice()),
        },
    }
}
