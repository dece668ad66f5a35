//! Laws of commands and tasks: functions with empty bodies whose contracts are the statements.

ghost use Rattle.std.specs.Prelude.{◌≡◌, ℕ, ◌≤◌, ◌++◌, ◌∷◌, [], Option, Some, None, replicate, true};
ghost use Rattle.std.specs.Option.{option_map};
ghost use Rattle.std.specs.FinMap.{get};
ghost use Rattle.vac_model.specs.declared.items.Kind.{Kind};
ghost use Rattle.vac_model.specs.declared.items.Kind.TheVariants.{Car, Flight, Room};
ghost use Rattle.vac_model.specs.declared.items.Item.{Item};
ghost use Rattle.vac_model.specs.declared.commands.Command.{Command};
ghost use Rattle.vac_model.specs.declared.commands.Command.TheVariants as command;
ghost use Rattle.vac_model.specs.declared.commands.Refusal.{Refusal};
ghost use Rattle.vac_model.specs.declared.commands.Refusal.TheVariants.{NeedsCountAndPrice, TotalLimit, Full, NoItem, NotFree, InUse, Exists, NoCustomer, SoldOut, NotBooked, UnitLimit};
ghost use Rattle.vac_model.specs.declared.replies.Reply.{Reply};
ghost use Rattle.vac_model.specs.declared.replies.Reply.TheVariants as reply;
ghost use Rattle.vac_model.specs.declared.replies.CustomerOutcome.TheVariants as joined;
ghost use Rattle.vac_model.specs.declared.tasks.Task.{Task};
ghost use Rattle.vac_model.specs.declared.tasks.Task.TheVariants as task;
ghost use Rattle.vac_model.specs.State.{State, Booking, Bookings, empty_state, item_of, bookings_of, units_of, size, report};
ghost use Rattle.vac_model.specs.Step.{step, given_back};
ghost use Rattle.vac_model.specs.Run.{run};
ghost use Rattle.vac_model.specs.Ranges.{is_task};
ghost use Rattle.vac_model.specs.Balanced.{IsBalanced};
ghost use Rattle.vac_model.specs.Code.{code};
ghost use Rattle.vac_model.specs.Laws.{NeedsEntry, IsOne, IsBilled};

/// States that the state without entries is balanced, and that every valid task keeps a state
/// balanced and within its capacity.
pub fn states_stay_balanced()
    ensures empty { (n : ℕ) → IsBalanced (empty_state n) }
    ensures balanced { (s : State) (t : Task) → IsBalanced s → is_task t ≡ true
        → IsBalanced (run s t).0 }
    ensures capacity { (s : State) (t : Task) → IsBalanced s → is_task t ≡ true
        → (run s t).0.capacity ≡ s.capacity }
    ensures size { (s : State) (t : Task) → IsBalanced s → is_task t ≡ true
        → size (run s t).0 ≤ s.capacity }
{}

/// States that a refused command changes nothing.
pub fn refused_commands_change_nothing()
    ensures { (s : State) (c : Command) (why : Refusal)
        → (step s c).1 ≡ reply.No why → (step s c).0 ≡ s }
{}

/// States that `Full` is returned exactly if no earlier refusal applies, an entry is needed and
/// the size is the capacity.
pub fn full_where_no_entry_is_left()
    ensures only { (s : State) (c : Command) → IsBalanced s → (step s c).1 ≡ reply.No Full
        → NeedsEntry s c × (size s ≡ s.capacity) }
    ensures always { (s : State) (c : Command) → NeedsEntry s c → size s ≡ s.capacity
        → (step s c).1 ≡ reply.No Full }
{}

/// States that a trip, a leave and an update are never refused as a whole.
pub fn only_commands_are_refused()
    ensures { (s : State) (t : Task) (why : Refusal) → (run s t).1 ≡ reply.No why → IsOne t }
{}

/// States that a `Cancel` and a `DropCustomer` give back exactly the units that were booked.
pub fn bookings_are_given_back()
    ensures cancelled { (s : State) (c : ℕ) (kind : Kind) (id : ℕ)
        (bookings : Bookings) (b : Booking) (item : Item)
        → bookings_of s c ≡ Some bookings → item_of s kind id ≡ Some item
        → get bookings (kind, id) ≡ Some b
        → item_of (step s (command.Cancel c kind id)).0 kind id ≡ Some (given_back item b.units) }
    ensures dropped { (s : State) (c : ℕ) (bookings : Bookings) (kind : Kind) (id : ℕ)
        → bookings_of s c ≡ Some bookings
        → item_of (step s (command.DropCustomer c)).0 kind id
        ≡ option_map (λ item. given_back item (units_of bookings (kind, id))) (item_of s kind id) }
{}

/// States that a reservation adds the present price to the customer's bill for each unit. The
/// prices of older units stay; a price that an `Add` replaces changes no booking.
pub fn bills_keep_prices()
    ensures reserved { (s : State) (c : ℕ) (kind : Kind) (id num : ℕ)
        (bookings : Bookings) (item : Item)
        → bookings_of s c ≡ Some bookings → item_of s kind id ≡ Some item
        → (step s (command.Reserve c kind id num)).1 ≡ reply.Done
        → IsBilled bookings (step s (command.Reserve c kind id num)).0 c num item.price }
    ensures priced_anew { (s : State) (kind : Kind) (id num : ℕ) (price : Option ℕ) (c : ℕ)
        → bookings_of (step s (command.Add kind id num price)).0 c ≡ bookings_of s c }
{}

/// States that in a balanced state the used units of all items are the units of all bookings.
pub fn used_units_are_booked()
    ensures { (s : State) → IsBalanced s → (report s).used ≡ (report s).bookings }
{}

/// States that the code of a task and a reply determines both.
pub fn codes_determine_tasks_and_replies()
    ensures { (t u : Task) (r q : Reply) → code t r ≡ code u q → (t ≡ u) × (r ≡ q) }
{}

/// States the codes of the commands that change entries, and of their replies, worked out by hand.
pub fn codes_of_commands()
    ensures add { code (task.One (command.Add Car 7 100 (Some 50))) reply.Done
        ≡ 0 ∷ 0 ∷ 0 ∷ 7 ∷ 100 ∷ 1 ∷ 50 ∷ 0 ∷ [] }
    ensures add_without_price { code (task.One (command.Add Room 9 5 None))
        (reply.No NeedsCountAndPrice)
        ≡ 0 ∷ 0 ∷ 2 ∷ 9 ∷ 5 ∷ 0 ∷ 3 ∷ 0 ∷ [] }
    ensures delete { code (task.One (command.Delete Room 4 2)) (reply.No NotFree)
        ≡ 0 ∷ 1 ∷ 2 ∷ 4 ∷ 2 ∷ 3 ∷ 4 ∷ [] }
    ensures drop_flight { code (task.One (command.DropFlight 6)) (reply.No InUse)
        ≡ 0 ∷ 2 ∷ 6 ∷ 3 ∷ 5 ∷ [] }
    ensures new_customer { code (task.One (command.NewCustomer 8)) (reply.No Exists)
        ≡ 0 ∷ 3 ∷ 8 ∷ 3 ∷ 6 ∷ [] }
    ensures drop_customer { code (task.One (command.DropCustomer 8)) (reply.No NoCustomer)
        ≡ 0 ∷ 4 ∷ 8 ∷ 3 ∷ 7 ∷ [] }
    ensures reserve { code (task.One (command.Reserve 3 Flight 7 2)) (reply.No SoldOut)
        ≡ 0 ∷ 8 ∷ 3 ∷ 1 ∷ 7 ∷ 2 ∷ 3 ∷ 8 ∷ [] }
    ensures reserve_more { code (task.One (command.Reserve 3 Car 7 1)) (reply.No UnitLimit)
        ≡ 0 ∷ 8 ∷ 3 ∷ 0 ∷ 7 ∷ 1 ∷ 3 ∷ 10 ∷ [] }
    ensures cancel { code (task.One (command.Cancel 3 Room 9)) (reply.No NotBooked)
        ≡ 0 ∷ 9 ∷ 3 ∷ 2 ∷ 9 ∷ 3 ∷ 9 ∷ [] }
{}

/// States the codes of the commands that only ask, and of their replies, worked out by hand.
pub fn codes_of_questions()
    ensures free { code (task.One (command.Free Flight 2)) (reply.Number (Some 5))
        ≡ 0 ∷ 5 ∷ 1 ∷ 2 ∷ 1 ∷ 1 ∷ 5 ∷ [] }
    ensures price { code (task.One (command.Price Car 9)) (reply.Number None)
        ≡ 0 ∷ 6 ∷ 0 ∷ 9 ∷ 1 ∷ 0 ∷ [] }
    ensures bill { code (task.One (command.Bill 3)) (reply.Number (Some 340))
        ≡ 0 ∷ 7 ∷ 3 ∷ 1 ∷ 1 ∷ 340 ∷ [] }
    ensures audit { code (task.One command.Audit) (reply.Report (record {
      cars = 1;
      flights = 2;
      rooms = 3;
      customers = 4;
      bookings = 5;
      used = 6;
      free = 7;
      total = 13;
      billed = 90;
    }))
        ≡ 0 ∷ 10 ∷ 2 ∷ 1 ∷ 2 ∷ 3 ∷ 4 ∷ 5 ∷ 6 ∷ 7 ∷ 13 ∷ 90 ∷ [] }
{}

/// States the codes of the other tasks and their replies, worked out by hand.
pub fn codes_of_tasks()
    ensures trip { code (task.Trip 3 ((Car, 1) ∷ (Room, 9) ∷ []))
        (reply.Trip (record {
          joined = joined.Added;
          picks = Some (record { id = 1; price = 50; refused = None }) ∷ None
              ∷ Some (record { id = 9; price = 70; refused = Some NoItem }) ∷ [];
        }))
        ≡ 1 ∷ 3 ∷ 2 ∷ 0 ∷ 1 ∷ 2 ∷ 9 ∷ 4 ∷ 1 ∷ 3 ∷ 1 ∷ 1 ∷ 50 ∷ 0 ∷ 0 ∷ 1 ∷ 9 ∷ 70 ∷ 1 ∷ 3 ∷ [] }
    ensures refused_trip { code (task.Trip 3 ((Flight, 2) ∷ []))
        (reply.Trip (record {
          joined = joined.Refused Full;
          picks = None ∷ Some (record { id = 2; price = 50; refused = Some NoCustomer })
              ∷ None ∷ [];
        }))
        ≡ 1 ∷ 3 ∷ 1 ∷ 1 ∷ 2 ∷ 4 ∷ 2 ∷ 2 ∷ 3 ∷ 0 ∷ 1 ∷ 2 ∷ 50 ∷ 1 ∷ 7 ∷ 0 ∷ [] }
    ensures empty_trip { code (task.Trip 3 ((Room, 9) ∷ []))
        (reply.Trip (record { joined = joined.NotAsked; picks = None ∷ None ∷ None ∷ [] }))
        ≡ 1 ∷ 3 ∷ 1 ∷ 2 ∷ 9 ∷ 4 ∷ 0 ∷ 3 ∷ 0 ∷ 0 ∷ 0 ∷ [] }
    ensures leave { code (task.Leave 3) (reply.Number (Some 100)) ≡ 2 ∷ 3 ∷ 1 ∷ 1 ∷ 100 ∷ [] }
    ensures update { code (task.Update (command.Add Car 1 5 None ∷ command.DropFlight 2 ∷ []))
        (reply.Update (record { len = 2; refused = Some TotalLimit ∷ replicate 31 None }))
        ≡ (3 ∷ 2 ∷ 0 ∷ 0 ∷ 1 ∷ 5 ∷ 0 ∷ 2 ∷ 2 ∷ 5 ∷ 2 ∷ 32 ∷ 1 ∷ 1 ∷ []) ++ replicate 31 0 }
{}
