use model_text::Text;
use std::cmp::Ordering;

/// A key of a map: a whole number or a text. The number 3 and the text `3` are two keys.
#[derive(Clone, Debug, Drop)]
pub enum Key {
    Int(i32),
    Text(Text),
}

impl PartialEq for Key {
    ghost use Rattle.std.specs.Cmp.{partial_equiv_from_equiv};
    ghost use Rattle.model_values.specs.Keys.{same_key};
    ghost use Rattle.model_values.specs.KeyLaws.{same_key_equiv};

    ghost eq = { same_key };

    ghost laws = { partial_equiv_from_equiv same_key_equiv };

    fn eq(&self, other: &Key) -> bool {
        match (self, other) {
            (Key::Int(a), Key::Int(b)) => *a == *b,
            (Key::Text(a), Key::Text(b)) => a == b,
            _ => false,
        }
    }
}

impl Eq for Key {
    ghost use Rattle.model_values.specs.KeyLaws.{same_key_equiv};

    ghost laws = { same_key_equiv };
}

impl PartialOrd for Key {
    ghost use Rattle.std.specs.Prelude.{Some};
    ghost use Rattle.model_values.specs.Keys.{key_cmp};
    ghost use Rattle.model_values.specs.KeyLaws.{key_cmp_partial};

    ghost partial_cmp = { λ x y. Some (key_cmp x y) };

    ghost laws = { key_cmp_partial };

    fn partial_cmp(&self, other: &Key) -> Option<Ordering> {
        Some(self.cmp(other))
    }
}

impl Ord for Key {
    ghost use Rattle.std.specs.Prelude.{refl};
    ghost use Rattle.model_values.specs.Keys.{key_cmp};
    ghost use Rattle.model_values.specs.KeyLaws.{key_cmp_total, same_key_ties};

    ghost cmp = { key_cmp };

    ghost total = { key_cmp_total };

    ghost matches_partial_cmp = { λ x y. refl };

    ghost matches_eq = { same_key_ties };

    fn cmp(&self, other: &Key) -> Ordering {
        match (self, other) {
            (Key::Int(a), Key::Int(b)) => a.cmp(b),
            (Key::Int(_), Key::Text(_)) => Ordering::Less,
            (Key::Text(_), Key::Int(_)) => Ordering::Greater,
            (Key::Text(a), Key::Text(b)) => a.cmp(b),
        }
    }
}
