// The flag of a record that is accepted (M-107): "whether any byte after the name's zero within its room is not zero".
ghost use Rattle.std.specs.Prelude.{◌≡◌, ◌+◌, ◌≤◌, length, drop};
ghost use Rattle.meaning.specs.Bytes.{stale, put};
ghost use Rattle.meaning.specs.Schema.{schema};
ghost use Rattle.meaning.specs.Values.{width, body_words, value_words, flag_words};
ghost use Rattle.record.specs.Into.{Accepted, name_dirty, record_flag};

use meaning::Attributes;

// The bytes from a place on, which is not past the end: is one after the first zero not zero?
pub fn stale_from(s: &[u8], at: usize) -> bool
    requires { at ≤ length s.now }
    ensures { result ≡ stale (drop at s.now) }
{
    let room = &s[fields::zero_from(s, at)..];
    room.iter().any(|&byte| byte != 0)
}

// The room of a name ends where the trailer starts. Rule 33 has found the name's zero among the last eight bytes before
// it, so only those are looked at; and none of a type that has no name.
pub fn is_dirty(r: &[u8], kind: u64, a: Attributes) -> bool
    requires { Accepted a r.now kind }
    ensures { result ≡ name_dirty a r.now }
{
    if table::flag_at(kind).is_none() {
        return false;
    }
    let end = r.len() - answers::trailer_room(kind, a);
    stale_from(&r[..end], end - 8)
}

// The flag's word after those of the fields: 1 where it is set, else 0. A type that has no name has none.
pub fn set(r: &[u8], kind: u64, misc: u64, a: Attributes, out: &mut [u64])
    requires { Accepted a r.now kind × (length out.old ≡ value_words) }
    ensures { out.new ≡ put out.old (body_words + width (schema kind misc a)) (flag_words (schema kind misc a) (record_flag a r.now)) }
{
    if let Some(at) = table::flag_at(kind) {
        out[at] = u64::from(is_dirty(r, kind, a));
    }
}
