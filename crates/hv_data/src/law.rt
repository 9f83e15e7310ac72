//! Laws of the words of data.
ghost use Rattle.std.specs.Prelude.{◌≡◌, ◌++◌, List, ℕ};
ghost use Rattle.hv_data.specs.Data.{Datum, AreData, data_words, kinds_of, IsOneFront, HaveNoSpace};

/// Two lists of written data of the same kinds whose words stand in front of the same words are one.
pub fn data_are_unambiguous()
    ensures { (one other : List Datum) (rest behind : List (List ℕ))
        → kinds_of one ≡ kinds_of other → AreData one → AreData other
        → data_words one ++ rest ≡ data_words other ++ behind → IsOneFront one other rest behind }
{}

/// No word of a written datum has a space.
pub fn words_have_no_space()
    ensures { (ds : List Datum) → AreData ds → HaveNoSpace (data_words ds) }
{}
