//! What the definitions of codes say, each law the contract of a function that does nothing.

ghost use Rattle.std.specs.Prelude.{◌≡◌, ◌<◌, ◌+◌, ◌-◌, ◌≤◌, ◌↔◌, slice_index_or, ℕ, Bool, true, false, List, [], ◌∷◌, filter, map, length, IsTrue, Contains, IsNone, Some, None, option_map, nat_lt, if◌then◌else◌};
ghost use Rattle.bit_words.specs.Bits.{rank};
ghost use Rattle.code_laws.specs.Code.{Code, parens, positions, is_first, next, turn, next_back, turn_back, start_of, component_count};
ghost use Rattle.code_laws.specs.Numbers.{tree_edges, edge_of, node_of, ring_of, first_of_edge, first_of_node, first_of_shell, opening_position, one_on, edge_count, node_count, shell_count};
ghost use Rattle.code_laws.specs.declared.ring_number.RingNumber.TheVariants.{Outer, Shell};
ghost use Rattle.code_laws.specs.declared.seq_fault.SeqFault.TheVariants.{Tree};
ghost use Rattle.code_laws.specs.SeqFault.{seq_fault, is_sound};
ghost use Rattle.code_laws.specs.Tour.{code_of, edge_numbers, node_numbers, ring_numbers};
ghost use Rattle.code_laws.specs.Orbits.{orbit, is_beside, from_on};
ghost use Rattle.code_laws.specs.Laws.{MateLaws, StepLaws};
ghost use Rattle.code_laws.specs.Counts.{nodes_in, rings_in, edges_in, edges_of_kind};
ghost use Rattle.code_laws.specs.Worked.{triangle, triangle_walk, closed_edge, one_edge, two_edges, split_edge};

/// The mate of a position is the other position of its edge, and steps and steps back undo each other.
pub fn mates_and_steps()
    ensures mates { (c : Code) → IsTrue (is_sound c) → (p : ℕ) → p < length c.a → MateLaws c p }
    ensures turns { (c : Code) → IsTrue (is_sound c) → (p : ℕ) → p < length c.a
        → (turn_back c (turn c p) ≡ p) × (turn c (turn_back c p) ≡ p) }
    ensures nexts { (c : Code) → IsTrue (is_sound c) → (p : ℕ) → p < length c.a
        → (next_back c (next c p) ≡ p) × (next c (next_back c p) ≡ p) }
    ensures steps { (c : Code) → IsTrue (is_sound c) → (kind : Bool) (p : ℕ) → p < length c.a → StepLaws c kind p }
{}

/// Numbers are orbits. From a position on, steps of one kind go through the positions of its component that have the
/// same pair of that kind round them, in rising order and then from the lowest on. So two positions have one ring
/// exactly where one is in the other's orbit of `next`, and one node exactly where one is in the other's orbit of
/// `turn`.
pub fn numbers_are_orbits()
    ensures orbits { (c : Code) → IsTrue (is_sound c) → (kind : Bool) (p : ℕ) → p < length c.a
        → orbit c kind p ≡ filter (is_beside c kind p) (from_on c p) }
    ensures rings { (c : Code) → IsTrue (is_sound c) → (p q : ℕ) → p < length c.a → q < length c.a
        → (ring_of c p ≡ ring_of c q) ↔ Contains (orbit c false p) q }
    ensures nodes { (c : Code) → IsTrue (is_sound c) → (p q : ℕ) → p < length c.a → q < length c.a
        → (node_of c p ≡ node_of c q) ↔ Contains (orbit c true p) q }
{}

/// A component with so many edges of the tree has one node more, and with so many others one ring more: it is plane.
pub fn components_are_plane()
    ensures nodes { (c : Code) → IsTrue (is_sound c) → (j : ℕ) → j < component_count c
        → nodes_in c j ≡ edges_of_kind c true j + 1 }
    ensures rings { (c : Code) → IsTrue (is_sound c) → (j : ℕ) → j < component_count c
        → rings_in c j ≡ edges_of_kind c false j + 1 }
    ensures edges { (c : Code) → IsTrue (is_sound c) → (j : ℕ) → j < component_count c
        → edges_in c j ≡ edges_of_kind c true j + edges_of_kind c false j }
    ensures euler { (c : Code) → IsTrue (is_sound c) → (j : ℕ) → j < component_count c
        → nodes_in c j + rings_in c j ≡ edges_in c j + 2 }
{}

/// Where the first positions are. An edge begins where its pair opens. A root begins where its component does, any
/// other node one place after the edge of the tree that first reaches it, and a shell one place after its edge.
pub fn first_positions()
    ensures edges { (c : Code) → IsTrue (is_sound c) → (e : ℕ)
        → first_of_edge c e ≡ (if nat_lt e (tree_edges c) then opening_position c true e
        else opening_position c false (e - tree_edges c)) }
    ensures nodes { (c : Code) → IsTrue (is_sound c) → (n : ℕ)
        → first_of_node c n ≡ (if nat_lt n (component_count c) then Some (start_of c n)
        else one_on (opening_position c true (n - component_count c))) }
    ensures shells { (c : Code) → IsTrue (is_sound c) → (s : ℕ)
        → first_of_shell c s ≡ one_on (opening_position c false s) }
    ensures no_edge { (c : Code) → IsTrue (is_sound c) → (e : ℕ) → IsNone (first_of_edge c e) ↔ (edge_count c ≤ e) }
    ensures no_node { (c : Code) → IsTrue (is_sound c) → (n : ℕ) → IsNone (first_of_node c n) ↔ (node_count c ≤ n) }
    ensures no_shell { (c : Code) → IsTrue (is_sound c) → (s : ℕ) → IsNone (first_of_shell c s) ↔ (shell_count c ≤ s) }
    ensures first { (c : Code) → IsTrue (is_sound c) → (e p : ℕ) → first_of_edge c e ≡ Some p
        → (p < length c.a) × IsTrue (is_first c p) × (edge_of c p ≡ e) }
{}

/// The code of a walk has a parenthesis for each of its positions, and gives back which of them are the first of their
/// edge.
pub fn walks_come_back()
    ensures sizes { (tree first : List Bool) (starts : List ℕ) → length tree ≡ length first → (kind : Bool)
        → length (parens (code_of tree first starts) kind) ≡ rank kind tree (length tree) }
    ensures firsts { (tree first : List Bool) (starts : List ℕ) → length tree ≡ length first → (p : ℕ) → p < length tree
        → is_first (code_of tree first starts) p ≡ slice_index_or first p false }
{}

/// Worked codes meet what the laws ask, and have these numbers and steps.
pub fn worked_codes()
    ensures sound { IsTrue (is_sound triangle) × IsTrue (is_sound closed_edge) × IsTrue (is_sound one_edge)
        × IsTrue (is_sound two_edges) }
    ensures walk { triangle_walk ≡ triangle }
    ensures edges { edge_numbers triangle ≡ 0 ∷ 1 ∷ 2 ∷ 1 ∷ 0 ∷ 2 ∷ [] }
    ensures nodes { node_numbers triangle ≡ 0 ∷ 1 ∷ 2 ∷ 2 ∷ 1 ∷ 0 ∷ [] }
    ensures rings { ring_numbers triangle ≡ 0 ∷ 0 ∷ 0 ∷ 1 ∷ 1 ∷ 1 ∷ [] }
    ensures next { map (next triangle) (positions triangle) ≡ 1 ∷ 2 ∷ 0 ∷ 4 ∷ 5 ∷ 3 ∷ [] }
    ensures turn { map (turn triangle) (positions triangle) ≡ 5 ∷ 4 ∷ 3 ∷ 2 ∷ 1 ∷ 0 ∷ [] }
    ensures ring { (ring_of triangle 0 ≡ Outer 0) × (ring_of triangle 4 ≡ Shell 0)
        × (first_of_shell triangle 1 ≡ None) }
    ensures closed { (map (next closed_edge) (0 ∷ 1 ∷ []) ≡ 0 ∷ 1 ∷ []) × (node_numbers closed_edge ≡ 0 ∷ 0 ∷ [])
        × (ring_numbers closed_edge ≡ 0 ∷ 1 ∷ []) }
    ensures one { (map (next one_edge) (0 ∷ 1 ∷ []) ≡ 1 ∷ 0 ∷ []) × (node_numbers one_edge ≡ 0 ∷ 1 ∷ [])
        × (ring_numbers one_edge ≡ 0 ∷ 0 ∷ []) }
    ensures two { (next two_edges 1 ≡ 0) × (next two_edges 3 ≡ 2) × (turn two_edges 1 ≡ 1) }
    ensures split { seq_fault split_edge ≡ Some (Tree 0) }
{}
