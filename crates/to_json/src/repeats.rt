// Which objects have a key twice, by the index of their image (docs/IMAGE.md): equal keys of a container stand side by side there.
ghost use Rattle.std.specs.Prelude.{◌≡◌, ◌<◌, length, IfSome};
ghost use Rattle.to_json.specs.Words.{is_same};

use crate::shape::Printer;
use image::record::Record;
use image::taking::record_at;
use wire::cursor::Cursor;
use wire::text::part;

// How many bytes a mark has, the index's record of a key.
const SIZE: usize = 13;

// The image places of the container and of the key.
#[derive(Clone, Copy, PartialEq, Eq, Debug)]
struct Mark {
    container: usize,
    key: usize,
}

// The first mark, and those behind it. No mark has depth 0, and behind the last there are zeros.
fn first_mark(index: &[u8]) -> Option<(Mark, &[u8])>
    ensures { IfSome result (λ m. length m.1.now < length index.now) }
{
    let (row, behind) = index.split_at_checked(SIZE)?;
    let (depth, c) = (Cursor { at: 0 }).be_u8(row).ok()?;
    let (container, d) = c.be_u32(row).ok()?;
    let (key, _) = d.be_u32(row).ok()?;
    if depth == 0 {
        return None;
    }
    let mark = Mark {
        container: container as usize,
        key: key as usize,
    };
    Some((mark, behind))
}

#[tactic(auto, using(crate::proofs::Texts::same_pointwise))]
fn same(a: &[u8], b: &[u8]) -> bool
    ensures { result ≡ is_same a.now b.now }
{
    a == b
}

impl<'a, W> Printer<'a, W> {
    // The key whose record is at a place.
    fn key_at(&self, place: usize) -> &'a [u8] {
        match record_at(self.image, Cursor { at: place }) {
            Some((Record::Key(p, n), _)) => part(self.text, p, n),
            _ => &[],
        }
    }

    // Whether the pairs of a container are told as a list: where it has a key twice, or where there is no index that says so. Goes over the marks up to the last
    // of its own: containers are asked for in the order of the image, so each mark is looked at once.
    pub(crate) fn is_listed(&mut self, container: usize) -> bool {
        let Some(mut index) = self.index else {
            return true;
        };
        let mut found = false;
        let mut before = None;
        while let Some((mark, behind)) = first_mark(index) {
            if container < mark.container {
                break;
            }
            if mark.container == container {
                let key = self.key_at(mark.key);
                found = found || before.is_some_and(|other| same(other, key));
                before = Some(key);
            }
            index = behind;
        }
        self.index = Some(index);
        found
    }
}
