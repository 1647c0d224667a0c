//! Laws on libraries, for all of them. They do nothing when they run.

ghost use Rattle.std.specs.Prelude.{◌≡◌, ◌⊎◌, ℕ, List, [], ◌∷◌, ◌++◌, All, Contains, None, Some, true, false};
ghost use Rattle.json_text.specs.Value.{IsCompact};
ghost use Rattle.frac_keys.specs.Rising.{are_rising};
ghost use Rattle.clips.specs.Clips.{IsClipOf};
ghost use Rattle.library.specs.Best.{ids_of, is_better, item_of, AreBest, HasPut, HaveSameItems, IsBest};
ghost use Rattle.library.specs.Inserting.{clip_of, clip_text};
ghost use Rattle.library.specs.Items.{item_text, library_text};
ghost use Rattle.library.specs.Libraries.{HaveSameItemsIn, IsLibraryOfAll};
ghost use Rattle.library.specs.Reading.{IsItemIn, IsItemFault, IsLibFault, IsLibraryOf, IsWholeItem};
ghost use Rattle.library.specs.declared.fault.ItemFault.{ItemFault};
ghost use Rattle.library.specs.declared.fault.LibFault.{LibFault};
ghost use Rattle.library.specs.declared.item.Item.{Item};

/// A value says one item at most, or has one first fault.
pub fn item_is_unique()
    ensures once { (value : List ℕ) (item other : Item) → IsItemIn value item → IsItemIn value other
        → item ≡ other }
    ensures fault { (value : List ℕ) (fault other : ItemFault) → IsItemFault value fault
        → IsItemFault value other → fault ≡ other }
    ensures none { (value : List ℕ) (item : Item) (fault : ItemFault) → IsItemIn value item
        → IsItemFault value fault → ⊥ }
{}

/// A text is that of one library at most, or has one first fault.
pub fn library_is_unique()
    ensures once { (text : List ℕ) (items others : List Item) → IsLibraryOf text items
        → IsLibraryOf text others → items ≡ others }
    ensures fault { (text : List ℕ) (fault other : LibFault) → IsLibFault text fault
        → IsLibFault text other → fault ≡ other }
    ensures none { (text : List ℕ) (items : List Item) (fault : LibFault) → IsLibraryOf text items
        → IsLibFault text fault → ⊥ }
{}

/// A text is that of a library, or has a first fault.
pub fn library_or_fault_exists()
    ensures { (text : List ℕ) → IsCompact 128 text
        → ((items : List Item) × IsLibraryOf text items)
        ⊎ ((fault : LibFault) × IsLibFault text fault) }
{}

/// Items that are read of a library are whole, each.
pub fn read_items_are_whole()
    ensures { (text : List ℕ) (items : List Item) → IsLibraryOf text items → All IsWholeItem items }
{}

/// The text of a library of whole items is read as these items, in their order.
pub fn library_is_read_back()
    ensures read { (items : List Item) → All IsWholeItem items
        → IsLibraryOf (library_text items) items }
    ensures compact { (items : List Item) → All IsWholeItem items
        → IsCompact 128 (library_text items) }
{}

/// Of two items that differ in their texts, and of one id, one alone is better.
pub fn better_is_an_order()
    ensures same { (a : Item) → is_better a a ≡ false }
    ensures both { (a b : Item) → is_better a b ≡ true → is_better b a ≡ false }
    ensures chain { (a b c : Item) → is_better a b ≡ true → is_better b c ≡ true
        → is_better a c ≡ true }
    ensures neither { (a b : Item) → is_better a b ≡ false → is_better b a ≡ false
        → (a.created ≡ b.created) × (item_text a ≡ item_text b) }
{}

/// No items have no best ones, and every list of items has its best ones.
pub fn best_exist()
    ensures none { AreBest [] [] }
    ensures all { (items : List Item) → (best : List Item) × AreBest items best }
{}

/// What is found under an id among best items is the best item of that id; and nothing is found
/// only where no item has it.
pub fn best_are_found()
    ensures found { (items best : List Item) (id : List ℕ) (item : Item)
        → AreBest items best → item_of best id ≡ Some item → IsBest items item × (item.id ≡ id) }
    ensures none { (items best : List Item) (id : List ℕ) (item : Item)
        → AreBest items best → item_of best id ≡ None → Contains items item → item.id ≡ id → ⊥ }
{}

/// Of whole items one alone is the best of its id.
pub fn best_is_unique()
    ensures { (items : List Item) (item other : Item) → All IsWholeItem items
        → IsBest items item → IsBest items other → item.id ≡ other.id → item ≡ other }
{}

/// Best items among which one more was put are the best of the list with this one at its end.
pub fn put_is_best()
    ensures { (items best new : List Item) (item : Item)
        → AreBest items best → HasPut best item new → AreBest (items ++ item ∷ []) new }
{}

/// The best items of a list, and so the text of their library, depend on the set of its items
/// alone: on neither their order nor their repetition.
pub fn best_are_of_the_set()
    ensures texts { (items others best news : List Item) → HaveSameItems items others
        → AreBest items best → AreBest others news → library_text best ≡ library_text news }
    ensures items { (items others best news : List Item) → HaveSameItems items others
        → All IsWholeItem items
        → AreBest items best → AreBest others news → best ≡ news }
{}

/// Their grouping doesn't count: the best of two lists' best items are the best of the two lists.
pub fn best_join()
    ensures { (items others best news all : List Item) → AreBest items best → AreBest others news
        → AreBest (best ++ news) all → AreBest (items ++ others) all }
{}

/// Items whose ids rise are their own best ones.
pub fn best_are_best()
    ensures rising { (items : List Item) → are_rising (ids_of items) ≡ true → AreBest items items }
    ensures best { (items best : List Item) → AreBest items best → AreBest best best }
{}

/// The library of texts depends on the set of their items alone.
pub fn library_is_of_the_set()
    ensures { (texts others : List (List ℕ)) (output other : List ℕ) → HaveSameItemsIn texts others
        → IsLibraryOfAll texts output → IsLibraryOfAll others other → output ≡ other }
{}

/// The library of the libraries of two lists of texts is the library of all of them.
pub fn libraries_join()
    ensures { (texts others : List (List ℕ)) (output other all : List ℕ)
        → IsLibraryOfAll texts output → IsLibraryOfAll others other
        → IsLibraryOfAll (output ∷ other ∷ []) all → IsLibraryOfAll (texts ++ others) all }
{}

/// The library of a library is the same text.
pub fn library_is_its_own()
    ensures own { (texts : List (List ℕ)) (output : List ℕ) → IsLibraryOfAll texts output
        → IsLibraryOfAll (output ∷ []) output }
    ensures only { (texts : List (List ℕ)) (output other : List ℕ)
        → IsLibraryOfAll texts output → IsLibraryOfAll (output ∷ []) other → other ≡ output }
{}

/// Inserting an item is pasting its elements: the clip with the elements of a whole item is read as
/// the clip that is inserted.
pub fn item_is_a_clip()
    ensures { (item : Item) → IsWholeItem item → IsClipOf (clip_text item.elements) (clip_of item) }
{}
