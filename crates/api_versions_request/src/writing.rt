// The body of an ApiVersions request, versions 0 to 3: empty before version 3, and from there on name and version of the client's software, and tags.
ghost use Rattle.std.specs.Prelude.{◌&&◌, cond, false, true, ◌≡◌, [], ◌++◌, ◌∷◌};
ghost use Rattle.layout.specs.Answers.{write_alone, write_answer};
ghost use Rattle.layout.specs.Messages.ApiVersions as Api;
ghost use Rattle.layout.specs.Primitives.{plain};
ghost use Rattle.layout.specs.Rows as Rows;
ghost use Rattle.layout.specs.Tables.{basic_of, good, good_cells};
ghost use Rattle.layout.specs.Utf8 as Utf8;
ghost use Rattle.layout.specs.Write as Write;
ghost use Rattle.primitives_put.specs.Step.{Capped};
ghost use Rattle.body_reading.specs.Tagged.{tag_shape};
ghost use Rattle.body_writing.specs.Writes.{bytes_at, counted_bytes, refusal_of};
ghost use Rattle.primitives_put.specs.Answers.{replied};
ghost use Rattle.api_versions_request.specs.Answers.{of_request, of_text};
ghost use Rattle.api_versions_request.specs.Shapes.{request_shape, text_field, texts_shape};

use crate::{RequestBody, Text};
use body_writing::ranges::{is_inside, part};
use primitives::{BAD_TABLES, MOST, NO_VERSION, NOT_TEXT, Span, TOO_LONG, at, no_room, version_of};
use primitives_put::{Form, Written};
use tagged_fields::writing::tag_buffer;

// The bytes of a text: none where it is unset.
pub(crate) fn bytes_of(lent: &[u8], t: Text) -> &[u8]
    ensures { result.now ≡ basic_of lent.now (text_field true) (of_text t) }
{
    match t {
        None => part(lent, 0, 0),
        Some(Span { start, len }) => part(lent, start as u64, len as u64),
    }
}

// ---- 13 and 7

fn is_ranged(size: usize, t: Text) -> bool
    ensures { result ≡ good_cells size (text_field true) (of_text t) }
{
    match t {
        None => true,
        Some(Span { start, len }) => is_inside(size, start as u64, len as u64),
    }
}

fn is_good(size: usize, name: Text, version: Text, own: u64, tags: &[u64]) -> bool
    ensures { result ≡ good size 1 (request_shape false) ((of_text name ++ (of_text version ++ (own ∷ []))) ∷ tags.now ∷ []) }
{
    is_ranged(size, name)
        && is_ranged(size, version)
        && tagged_fields::writing::is_good(size, own, tags)
}

fn are_texts(flexible: bool, name: &[u8], version: &[u8]) -> bool
    ensures { result ≡ cond flexible (Utf8.utf8 name.now && Utf8.utf8 version.now) true }
{
    !flexible || (utf8::is_text(name) && utf8::is_text(version))
}

// 13, 7, or 0 for neither. A number and no Option: its promise is the definition's number, which has 0 for none.
fn refusal(flexible: bool, lent: &[u8], name: Text, version: Text, own: u64, tags: &[u64]) -> u8
    ensures { result ≡ refusal_of lent.now 1 (request_shape false) (request_shape flexible) ((of_text name ++ (of_text version ++ (own ∷ []))) ∷ tags.now ∷ []) }
{
    if !is_good(lent.len(), name, version, own, tags) {
        return BAD_TABLES;
    }
    if !are_texts(flexible, bytes_of(lent, name), bytes_of(lent, version)) {
        return NOT_TEXT;
    }
    0
}

// ---- the walk

fn texts(out: &mut [u8], name: &[u8], version: &[u8]) -> usize
    ensures { Capped (Write.write (texts_shape Rows.end) (name.now, (version.now, tt))) out.old result out.new }
{
    let a = primitives_put::sized(out, Form::Compact, name);
    let p = primitives_put::behind(a, out.len());
    let b = primitives_put::sized(&mut out[p..], Form::Compact, version);
    primitives_put::add(a, b)
}

fn body(
    out: &mut [u8],
    flexible: bool,
    lent: &[u8],
    name: &[u8],
    version: &[u8],
    tags: &[u64],
) -> usize
    ensures { Capped (cond flexible (Write.write (texts_shape Rows.end) (name.now, (version.now, tt)) ++ counted_bytes lent.now tag_shape plain 3 tags.now) []) out.old result out.new }
{
    if !flexible {
        return 0;
    }
    let a = texts(out, name, version);
    let p = primitives_put::behind(a, out.len());
    let b = tag_buffer(&mut out[p..], lent, tags);
    primitives_put::add(a, b)
}

// ---- the call

// Measured and written, where nothing is refused.
fn stored(
    out: &mut [u8],
    name: &[u8],
    version: &[u8],
    flexible: bool,
    lent: &[u8],
    tags: &[u64],
) -> Written
    ensures { replied result out.new ≡ write_alone 0 (cond flexible (Write.write (texts_shape Rows.end) (name.now, (version.now, tt)) ++ counted_bytes lent.now tag_shape plain 3 tags.now) []) out.old }
{
    let all = body(&mut out[..0], flexible, lent, name, version, tags);
    if MOST < all {
        return Err(at(TOO_LONG, 0));
    }
    if out.len() < all {
        return Err(no_room(all));
    }
    body(out, flexible, lent, name, version, tags);
    Ok(all)
}

// At a version that is known.
fn written(
    out: &mut [u8],
    flexible: bool,
    lent: &[u8],
    name: Text,
    version: Text,
    own: u64,
    tags: &[u64],
) -> Written
    ensures { replied result out.new ≡ write_alone (refusal_of lent.now 1 (request_shape false) (request_shape flexible) ((of_text name ++ (of_text version ++ (own ∷ []))) ∷ tags.now ∷ [])) (bytes_at lent.now (request_shape flexible) 0 ((of_text name ++ (of_text version ++ (own ∷ []))) ∷ tags.now ∷ [])) out.old }
{
    let e = refusal(flexible, lent, name, version, own, tags);
    if e != 0 {
        return Err(at(e, 0));
    }
    stored(
        out,
        bytes_of(lent, name),
        bytes_of(lent, version),
        flexible,
        lent,
        tags,
    )
}

// `tags` are rows of tag, and start and length of its data in `lent`; the texts are parts of `lent` too.
pub fn write(out: &mut [u8], version: i64, lent: &[u8], body: RequestBody, tags: &[u64]) -> Written
    ensures { replied result out.new ≡ write_answer Api.request version lent.now (of_request body ∷ tags.now ∷ []) out.old }
{
    let v = version_of(version);
    if 3 < v {
        return Err(at(NO_VERSION, 0));
    }
    written(out, 3 <= v, lent, body.name, body.version, body.tags, tags)
}
