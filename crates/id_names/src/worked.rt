//! Names of small parts, each the contract of a function that does nothing.

ghost use Rattle.std.specs.Prelude.{◌≡◌, ◌*◌, ◌^◌, [], ◌∷◌, map, Some, None};
ghost use Rattle.id_names.specs.Names.{number_of};
ghost use Rattle.id_names.specs.RisingNames.{ids_by_number, number_at};
ghost use Rattle.id_names.specs.Faults.{name_fault};
ghost use Rattle.id_names.specs.Worked.{two_one_three, two_one_three_wide, one_cycle, greatest, greatest_wide, nothing, nothing_wide, directory};

/// Three names, two of them in a cycle that has no marks.
pub fn three_names()
    ensures ids { ids_by_number two_one_three ≡ 2 ∷ 1 ∷ 3 ∷ [] }
    ensures inverse { map (number_at two_one_three) (0 ∷ 1 ∷ 2 ∷ 3 ∷ []) ≡ Some 1 ∷ Some 0 ∷ Some 2 ∷ None ∷ [] }
    ensures right { name_fault two_one_three (directory (3 * 2 ^ 32)) (directory 0) ≡ None }
    ensures wide { ids_by_number two_one_three_wide ≡ 2 ∷ 1 ∷ 3 ∷ [] }
    ensures wide_right { name_fault two_one_three_wide (directory (3 * 2 ^ 32)) (directory 0) ≡ None }
{}

/// Four names in one cycle, with marks and a pointer back from each.
pub fn names_in_a_cycle()
    ensures ids { ids_by_number one_cycle ≡ 2 ∷ 3 ∷ 4 ∷ 1 ∷ [] }
    ensures found { map (number_of (ids_by_number one_cycle)) (1 ∷ 2 ∷ 4 ∷ 5 ∷ [])
        ≡ Some 3 ∷ Some 0 ∷ Some 2 ∷ None ∷ [] }
    ensures inverse { map (number_at one_cycle) (0 ∷ 1 ∷ 2 ∷ 3 ∷ []) ≡ Some 3 ∷ Some 0 ∷ Some 1 ∷ Some 2 ∷ [] }
    ensures right { name_fault one_cycle (directory (4 * 2 ^ 32)) (directory (2 * 2 ^ 32)) ≡ None }
{}

/// One name of the greatest id that 31 bits or 63 bits hold, and no names.
pub fn ends_of_names()
    ensures greatest { ids_by_number greatest ≡ 2147483647 ∷ [] }
    ensures greatest_right { name_fault greatest (directory (2 ^ 32)) (directory 0) ≡ None }
    ensures wide { ids_by_number greatest_wide ≡ 9223372036854775807 ∷ [] }
    ensures wide_right { name_fault greatest_wide (directory (2 ^ 32)) (directory 0) ≡ None }
    ensures nothing { ids_by_number nothing ≡ [] }
    ensures nothing_right { name_fault nothing (directory 0) (0 ∷ []) ≡ None }
    ensures nothing_wide { name_fault nothing_wide (directory 0) (0 ∷ []) ≡ None }
{}
