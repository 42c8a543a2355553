// The effect that the pass gives a place: a mark replaces the effect only.
ghost use Rattle.std.specs.Prelude.{◌≡◌, map, ◌+◌, ◌*◌, ◌≤◌, length};
ghost use Rattle.model.specs.Limits.{place_width};
ghost use Rattle.model.specs.Lists.{gather};
ghost use Rattle.model.specs.Sheet.{Place as ModelPlace};
ghost use Rattle.model.specs.Answer.{place_words};
ghost use Rattle.model.specs.Marks.{with_effect};
ghost use Rattle.hir.specs.Numbers.{effect_number};
ghost use Rattle.hir.specs.Says.{place_is};
ghost use Rattle.writing.specs.Wrote.{Writes, farthest};
ghost use Rattle.operands.specs.Given.{given_to, word_gives, last_places};

use copies::put_place;
use hir::at::{List, PLACE_WIDTH, place_at};
use hir::places::effect_in;
use hir::{Effect, Place};
use writing::Writer;

// The place with this mark.
pub fn with_effect(p: Place, effect: Effect) -> Place
    ensures { place_is result ≡ with_effect (effect_number effect) (place_is p) }
{
    Place { effect, ..p }
}

// The place with what is given: a mark, or nothing, and it keeps its effect.
pub fn give(p: Place, given: Option<Effect>) -> Place
    ensures { place_is result ≡ given_to given (place_is p) }
{
    match given {
        None => p,
        Some(effect) => with_effect(p, effect),
    }
}

// What a word says: 0 nothing, else one above the effect's position.
pub fn given_by(word: u32) -> Option<Effect>
    ensures { (p : ModelPlace) → given_to result p ≡ word_gives word p }
{
    word.checked_sub(1).map(effect_in)
}

// The places of a list whose parts have `width` words: each ends with its place.
pub fn put_places(
    sheet: &[u32],
    list: List,
    width: usize,
    given: Option<Effect>,
    out: &mut Writer<'_, u32>,
)
    requires place_width_le_width { (place_width ≤ width) × ((last_places width sheet.now list).next ≤ length sheet.now) }
    requires count_bound { out.old.at + place_width * list.count ≤ farthest }
    ensures { Writes (gather place_words (map (given_to given) (last_places width sheet.now list).what)) out.old out.new }
{
    let before = width - PLACE_WIDTH;
    let mut next = list.first;
    for _ in 0..list.count {
        put_place(out, give(place_at(sheet, next + before), given));
        next += width;
    }
}
