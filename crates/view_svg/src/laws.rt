ghost use Rattle.std.specs.Prelude.{◌≡◌, ◌≢◌, ℕ, ◌+◌, ◌-◌, ◌/◌, ◌<◌, ◌≤◌, ◌++◌, Bool, true, false, List, [], ◌∷◌, filter, length, max, min};
ghost use Rattle.std.specs.List.{list_any};
ghost use Rattle.tab_core.specs.declared.TheConstants.{ROUND};
ghost use Rattle.view_doc.specs.declared.view.Stretch.{Stretch};
ghost use Rattle.view_doc.specs.declared.view.Use.TheVariants.{Slot};
ghost use Rattle.view_svg.specs.Boxed.{AreInTurn, has_tick, is_in_box};
ghost use Rattle.view_svg.specs.Columns.{level_of};
ghost use Rattle.view_svg.specs.Frames.{right_end, x_at};
ghost use Rattle.view_svg.specs.Joined.{boxes_of, seams_of};
ghost use Rattle.view_svg.specs.Keys.{key_room, key_top, key_width, key_x};
ghost use Rattle.view_lanes.specs.Shown.{is_on_lane, key_of, lane_bars};
ghost use Rattle.view_lanes.specs.declared.frame.Bar.{Bar};
ghost use Rattle.view_lanes.specs.declared.frame.Frame.{Frame};

/// Each slot of a text that has ticks in a picture of at most one round is a bar of its lane, at its place among
/// the others, and its box has a width. What ends before something begins also ends left of it, or there.
pub fn no_slot_vanishes()
    ensures drawn { (f : Frame) (before after : List Stretch) (s : Stretch) (row v : ℕ)
        → is_on_lane f.by_vcpu row s ≡ true → s.by ≡ Slot v → max s.from f.from < min s.end f.to
        → lane_bars f (before ++ s ∷ after) row ≡ lane_bars f before row ++ (record {
          from = max s.from f.from;
          end = min s.end f.to;
          key = key_of f.by_vcpu s v;
          shared = false;
        }) ∷ lane_bars f after row }
    ensures wide { (f : Frame) (from end : ℕ) → f.to - f.from ≤ ROUND → f.from ≤ from → from < end
        → end ≤ f.to → x_at f from < x_at f end }
    ensures apart { (f : Frame) (end from : ℕ) → f.from < f.to → end ≤ from → x_at f end ≤ x_at f from }
{}

/// In a picture of a plan each bar is a box. In any picture no box could be one with the box before it. Where the
/// bars of a key come one after the other, each of them that has ticks is in exactly one box. The boxes of the key
/// come one after the other too, and have the ticks of its bars, of the same way of running, and no others.
pub fn a_bar_is_in_one_box()
    ensures alone { (f : Frame) (bars : List Bar) → f.is_run ≡ false → boxes_of f bars ≡ bars }
    ensures whole { (f : Frame) (bars : List Bar) → seams_of f (boxes_of f bars) ≡ [] }
    ensures one { (f : Frame) (tick : ℕ) (before after : List Bar) (bar : Bar) → bar.from < bar.end
        → AreInTurn bar.key tick (before ++ bar ∷ after)
        → length (filter (is_in_box bar) (boxes_of f (before ++ bar ∷ after))) ≡ 1 }
    ensures apart { (f : Frame) (key tick : ℕ) (bars : List Bar) → AreInTurn key tick bars
        → AreInTurn key tick (boxes_of f bars) }
    ensures ticks { (f : Frame) (key start : ℕ) (bars : List Bar) → AreInTurn key start bars → (tick : ℕ) (shared : Bool)
        → list_any (has_tick key shared tick) (boxes_of f bars) ≡ list_any (has_tick key shared tick) bars }
{}

/// In a column of a lane the vCPUs are upon each other, and no higher than the lane.
pub fn a_column_stays_in_its_lane()
    ensures stacked { (f : Frame) (high : ℕ) (bars : List Bar) (v j : ℕ)
        → level_of f high bars v j ≤ level_of f high bars (v + 1) j }
    ensures within { (f : Frame) (high : ℕ) (bars : List Bar) (v j : ℕ) → level_of f high bars v j ≤ high }
{}

/// The places of a lane's key are right of the lane and of the wait's words, in the picture, and no lower than the gap
/// below the lane. Each is right of the one before it in its row, or its row is lower.
pub fn a_key_has_its_place()
    ensures right { (by_vcpu : Bool) (k : ℕ) → right_end + 1000 ≤ key_x by_vcpu k }
    ensures within { (by_vcpu : Bool) (k : ℕ) → key_x by_vcpu k + key_width by_vcpu ≤ 150000 }
    ensures high { (by_vcpu : Bool) (y high k : ℕ) → 1000 ≤ high → k < key_room by_vcpu high
        → (y ≤ key_top by_vcpu y k) × (key_top by_vcpu y k + 800 ≤ y + high + high / 5) }
    ensures beside { (by_vcpu : Bool) (y k m : ℕ) → k < m → key_top by_vcpu y k ≡ key_top by_vcpu y m
        → key_x by_vcpu k + key_width by_vcpu ≤ key_x by_vcpu m }
    ensures below { (by_vcpu : Bool) (y k m : ℕ) → k < m → key_top by_vcpu y k ≢ key_top by_vcpu y m
        → key_top by_vcpu y k + 1000 ≤ key_top by_vcpu y m }
{}
