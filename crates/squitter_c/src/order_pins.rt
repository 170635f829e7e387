//! Guards of the definitions: each has one value, some value or an exact condition, so none can be weakened unnoticed.
//! A function with an empty body does nothing: its contract is the statement.
ghost use Rattle.std.specs.Prelude.{◌≡◌, ◌↔◌, ◌≤◌, ◌⊎◌, Bool, List, ℕ, Option, Some, if◌then◌else◌, length};
ghost use Rattle.sq_feed.specs.Orders.{Sorting, nothing_sorted};
ghost use Rattle.squitter_c.specs.declared.faults.Fault.{Fault};
ghost use Rattle.squitter_c.specs.Faults.{fault_of, none};
ghost use Rattle.squitter_c.specs.declared.faults.Reason.TheVariants as reasons;
ghost use Rattle.squitter_c.specs.declared.log_loop.Done.{Done};
ghost use Rattle.squitter_c.specs.OrderCalls.{HasGivenHeld, HasTakenInOrder, IsOrderCounted, IsOrderFlushed};
ghost use Rattle.squitter_c.specs.OrderCalls.{IsOrderGrown, IsOrderMade, held_count, late_count};
ghost use Rattle.squitter_c.specs.OrderCalls.{IsOrderTaken};

/// A new order, one that was moved, and the numbers of squitters that are held and were late.
pub fn made_orders_exactly()
    ensures made { (reorder size : ℕ) (k : Sorting) (fault : Fault) → IsOrderMade reorder size (Some k) fault
        ↔ ((k ≡ nothing_sorted reorder) × (536 ≤ size) × (fault ≡ none)) }
    ensures held { (k : Sorting) (was is : ℕ) (fault : Fault) → IsOrderCounted held_count (Some k) was is fault
        ↔ ((is ≡ length k.held) × (fault ≡ none)) }
    ensures late { (k : Sorting) (was is : ℕ) (fault : Fault) → IsOrderCounted late_count (Some k) was is fault
        ↔ ((is ≡ k.late) × (fault ≡ none)) }
    ensures grown { (k : Sorting) (new : Option Sorting) (fault : Fault) → IsOrderGrown (Some k) new fault
        ↔ ((new ≡ Some k) × ((fault ≡ none) ⊎ (fault ≡ fault_of reasons.Memory))) }
{}

/// The exact results of taking elements into an order and of flushing it.
pub fn sorted_exactly()
    ensures taken { (k : Sorting) (new : Option Sorting) (moments moments_were stored : List ℕ)
        (frames frames_were stored_frames : List (List ℕ)) (before after : Done) (fault : Fault)
        → IsOrderTaken (Some k) new moments frames moments_were stored frames_were stored_frames before after fault
        ↔ ((next : Sorting) × (is_full : Bool) × (new ≡ Some next)
        × HasTakenInOrder k next moments frames moments_were stored frames_were stored_frames after is_full
        × (fault ≡ if is_full then fault_of reasons.Memory else none)) }
    ensures flushed { (k : Sorting) (new : Option Sorting) (moments_were stored : List ℕ)
        (frames_were stored_frames : List (List ℕ)) (before after : Done) (fault : Fault)
        → IsOrderFlushed (Some k) new moments_were stored frames_were stored_frames before after fault
        ↔ ((next : Sorting) × (new ≡ Some next)
        × HasGivenHeld k next moments_were stored frames_were stored_frames after × (fault ≡ none)) }
{}
