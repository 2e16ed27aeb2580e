//! The texts of exports that no plan changes, as shells read them.

/// How a text for Xen's RTDS begins.
pub(crate) const RTDS_HEAD: &[u8] = b"\
# Xen's RTDS for the vCPUs of a plan, written by tableau-tools export rtds.
# Kept there: each vCPU's budget in each of its periods, so its share and its longest wait; and its cap (-e 0).
# Not kept: which ticks of a period are whose. A vCPU that isn't capped takes what others leave (-e 1), as Xen shares it.
# Apply: sh FILE, as root, where the guests are in a pool of RTDS (sched=rtds) and nothing else is on these CPUs.
# Undo, for each guest: xl vcpu-pin GUEST all all all; xl sched-rtds -d GUEST -v all -p 10000 -b 4000 -e 1
set -e
";

/// How a text for Linux's deadline tasks begins.
pub(crate) const DEADLINE_HEAD: &[u8] = b"\
# Deadline tasks of Linux for the vCPUs of a plan, written by tableau-tools export deadline.
# Kept there: each vCPU's budget in each of its periods, so its share and its longest wait; and the cap, of every vCPU.
# Not kept: which ticks of a period are whose, and what a vCPU leaves unused goes to no other that isn't capped.
# Apply: SPARE=0-1 sh FILE, as root, with cgroups v2 alone; SPARE has the CPUs of the guests' other threads, and one CPU
# or more has to be neither there nor the plan's. The first line that fails ends it.
# Undo, for each vCPU: chrt --other --pid 0 THREAD; then move the guests out of the group, and remove its folders.
";

/// What finds the thread of a vCPU, for texts that speak of threads.
pub(crate) const SHELL_HEAD: &[u8] = b"\
set -e
group=/sys/fs/cgroup/tableau
# thread GUEST N: the thread of a vCPU, of QEMU by libvirt, or as the program says that THREAD names.
thread() {
    if [ -n \"$THREAD\" ]; then
        \"$THREAD\" \"$1\" \"$2\"
    else
        grep -lx \"CPU $2/KVM\" \"/proc/$(cat \"/run/libvirt/qemu/$1.pid\")/task/\"*/comm | cut -d/ -f5
    fi
}
";

/// What is said of 95 percent.
pub(crate) const ADMITTED: &[u8] = b"\
# The kernel admits 95 percent of a CPU unless told, and the plan has no more on any.
";

/// What tells the kernel to admit all of a CPU.
pub(crate) const ADMIT_ALL: &[u8] = b"\
# The kernel admits 95 percent of a CPU unless told; undo this by kernel.sched_rt_runtime_us=950000.
sysctl -w kernel.sched_rt_runtime_us=-1
";

/// What makes the partitions.
pub(crate) const PARTITIONS: &[u8] = b"\
# part FOLDER: makes the group a partition, and stops where the kernel doesn't take it.
part() {
    echo root > \"$1/cpuset.cpus.partition\"
    if ! grep -qx root \"$1/cpuset.cpus.partition\"; then
        echo \"$1: the kernel takes no partition: $(cat \"$1/cpuset.cpus.partition\")\" >&2
        exit 1
    fi
}
# core CPU: a partition of this CPU alone.
core() {
    mkdir -p \"$group/cpu$1\"
    echo threaded > \"$group/cpu$1/cgroup.type\"
    echo \"$1\" > \"$group/cpu$1/cpuset.cpus\"
    part \"$group/cpu$1\"
}
# into GUEST N CPU: the vCPU's thread goes into that partition, and its guest's other threads to the spare CPUs.
into() {
    task=$(thread \"$1\" \"$2\")
    grep -q '^0::/tableau' \"/proc/$task/cgroup\" || echo \"$task\" > \"$group/cgroup.procs\"
    echo \"$task\" > \"$group/cpu$3/cgroup.threads\"
}
echo +cpuset > /sys/fs/cgroup/cgroup.subtree_control
mkdir -p \"$group\"
echo \"${SPARE:?has no CPUs}\" $cpus | tr ' ' ',' > \"$group/cpuset.cpus\"
part \"$group\"
echo +cpuset > \"$group/cgroup.subtree_control\"
for cpu in $cpus; do core \"$cpu\"; done
";

/// How a text for quotas of cgroups begins.
pub(crate) const CGROUP_HEAD: &[u8] = b"\
# Quotas of Linux's cgroups v2 for the vCPUs of a plan, written by tableau-tools export cgroup.
# Kept there, about and over seconds: each vCPU's share, by its weight and its CPU; and the cap, of every vCPU, by its quota.
# Not kept: the longest wait, which the fair scheduler doesn't bound, and which ticks of a period are whose.
# What a vCPU leaves unused goes to no other. Short periods are put together until their quota is 1 ms, the least there is.
# Apply: SPARE=0-1 sh FILE, as root, with cgroups v2 alone; SPARE has the CPUs of the guests' other threads.
# Undo: move the guests out of the group, and remove its folders.
";

/// What makes the group of all vCPUs, and that of the guests' other threads.
pub(crate) const GROUPS: &[u8] = b"\
# vcpu GUEST N: the vCPU's thread goes into a group of its own, and its guest's other threads to the spare CPUs.
vcpu() {
    task=$(thread \"$1\" \"$2\")
    if ! grep -q '^0::/tableau' \"/proc/$task/cgroup\"; then
        echo \"$task\" > \"$group/cgroup.procs\"
        for other in \"/proc/$task/task/\"*; do echo \"${other##*/}\" > \"$group/rest/cgroup.threads\" || true; done
    fi
    own=$group/$1.$2
    mkdir -p \"$own\"
    echo threaded > \"$own/cgroup.type\"
    echo \"$task\" > \"$own/cgroup.threads\"
}
echo '+cpu +cpuset' > /sys/fs/cgroup/cgroup.subtree_control
mkdir -p \"$group\"
echo '+cpu +cpuset' > \"$group/cgroup.subtree_control\"
mkdir -p \"$group/rest\"
echo threaded > \"$group/rest/cgroup.type\"
echo \"${SPARE:?has no CPUs}\" > \"$group/rest/cpuset.cpus\"
";

/// How a text for libvirt begins.
pub(crate) const LIBVIRT_HEAD: &[u8] = b"\
# Quotas and CPUs of libvirt for the vCPUs of a plan, written by tableau-tools export libvirt.
# Kept there, about: the cap, of every vCPU, over seconds. The share, where vCPUs of one CPU have periods alike.
# Not kept: the longest wait, which the fair scheduler below doesn't bound, and which ticks of a period are whose.
# A guest has one period and one quota, in microseconds, for each of its vCPUs; no weights are set.
# Apply: sh FILE, to guests that run. A comment has what a guest's XML has to say of it, for virsh edit.
# Undo, for each guest: virsh schedinfo GUEST --set vcpu_quota=-1; for each vCPU: virsh vcpupin GUEST N 0-LAST
set -e
";
