// From an index file to an answer: Locate, and Locate and Ask in turn.
#![tactic(auto, unfolding(refusal::specs::Reading::and_then, refusal::specs::Reading::numbers_of, refusal::specs::Reading::fault_in))]

ghost use Rattle.std.specs.Prelude.{◌≡◌, ◌+◌, ◌≤◌, length, Ok, Some};
ghost use Rattle.index_file.specs.Reading.{bytes_of, find};
ghost use Rattle.file_to_answers.specs.Reading.{used, bytes_looked_at, file_answer_by};
ghost use Rattle.file_to_answers.specs.Promises.{LocatePromise, BodyIsIn, AskFilePromise, FileAsScan};

use bitmap_index::Question;
use index_file::Part;
use refusal::Refusal;
use subtract::Answer;

// The buffer that is looked at: the embedded one if it isn't empty, else the file. It is chosen here and nowhere else.
#[tactic(auto, using(crate::proofs::Calls::used_file, crate::proofs::Calls::used_embedded))]
fn looked_at<'a>(embedded: &'a [u8], file: &'a [u8]) -> &'a [u8]
    ensures { (result.now ≡ bytes_looked_at embedded.now file.now)
        × (result.ref_ptr ≡ used embedded.now embedded.entry.ref_ptr file.entry.ref_ptr) }
{
    if embedded.is_empty() { file } else { embedded }
}

// A part of the bytes.
fn part<'a>(bytes: &'a [u8], at: Part) -> &'a [u8]
    requires { at.start.0 + at.length ≤ length bytes.now }
    ensures { (result.now ≡ bytes_of at bytes.now)
        × (result.ref_ptr ≡ (bytes.entry.ref_ptr.0, at.start.0 + bytes.entry.ref_ptr.1)) }
{
    let start = at.start.0;
    let end = start + at.length;
    &bytes[start..end]
}

/// Where the body lies in the buffer that is looked at; none where the column or the kind is not listed.
pub fn find<'a>(
    embedded: &'a [u8],
    file: &'a [u8],
    column: &[u8],
    kind: &[u8],
) -> Result<Option<Part>, Refusal>
    ensures { result ≡ find (bytes_looked_at embedded.now file.now) column.now kind.now }
{
    index_file::find(looked_at(embedded, file), column, kind)
}

/// The body as a part of the buffer that is looked at, the embedded one if it isn't empty, and not a copy; none where the column or the kind is not listed.
pub fn body_in<'a>(
    embedded: &'a [u8],
    file: &'a [u8],
    column: &[u8],
    kind: &[u8],
) -> Result<Option<&'a [u8]>, Refusal>
    ensures { BodyIsIn (bytes_looked_at embedded.now file.now)
        (used embedded.now embedded.entry.ref_ptr file.entry.ref_ptr)
        (find (bytes_looked_at embedded.now file.now) column.now kind.now) result }
{
    let bytes = looked_at(embedded, file);
    let Some(at) = index_file::find(bytes, column, kind)? else {
        return Ok(None);
    };
    Ok(Some(part(bytes, at)))
}

/// What `body_in` answers, as a number through `answer`: 0 for found, 255 for a column or a kind that is not listed, or the refusal's. The part is empty where
/// none was found.
pub fn locate<'a>(
    embedded: &'a [u8],
    file: &'a [u8],
    column: &[u8],
    kind: &[u8],
    answer: &mut u8,
) -> &'a [u8]
    ensures { LocatePromise (bytes_looked_at embedded.now file.now) column.now kind.now
        (used embedded.now embedded.entry.ref_ptr file.entry.ref_ptr) answer.new result.now result.ref_ptr }
{
    match body_in(embedded, file, column, kind) {
        Ok(Some(body)) => {
            *answer = index_file::FOUND;
            body
        }
        Ok(None) => {
            *answer = index_file::ABSENT;
            &file[..0]
        }
        Err(why) => {
            *answer = why.number();
            &file[..0]
        }
    }
}

/// Locate, then Ask on the part that it finds, which audits by itself; none where the column or the kind is not listed. Of a column's file the answer and the
/// field are those of the scan, whatever the file's layout.
pub fn ask_file<'a>(
    embedded: &'a [u8],
    file: &'a [u8],
    column: &[u8],
    kind: &[u8],
    t: u32,
    question: Question,
    literals: &[u8],
    field: &mut [u8],
) -> Result<Option<Answer>, Refusal>
    ensures any_bytes { AskFilePromise (bytes_looked_at embedded.now file.now) column.now kind.now
        t question literals.now field.old field.new result }
    ensures as_the_scan { FileAsScan (bytes_looked_at embedded.now file.now) column.now kind.now
        t question literals.now field.old (λ a. (result ≡ file_answer_by (Ok (Some a))) × (field.new ≡ a.buffer)) }
{
    let Some(body) = body_in(embedded, file, column, kind)? else {
        return Ok(None); // what is not listed is not asked
    };
    let answer = bitmap_index::ask(body, t, question, literals, field)?;
    Ok(Some(answer))
}
